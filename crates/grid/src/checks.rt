// Checks 1, 26, 2 and 3 of a mesh, in their order. (Each function asks for what it needs of the lists, that there are few cells or that the lists are `Shaped`,
// and no type holds it: a list of kinds that C lends is not known to be of a mesh before the checks so far have passed.)
ghost use Rattle.std.specs.Prelude.{◌≡◌, ◌≤◌, true, [], ◌∷◌, length, eqb};
ghost use Rattle.lists.specs.Bool.{◌and◌, every};
ghost use Rattle.lists.specs.Bounded.{all};
ghost use Rattle.lists.specs.Refusals.{refusal};
ghost use Rattle.numbers.specs.Ranges.{within, all_below};
ghost use Rattle.refusals.specs.Numbers.{told};
ghost use Rattle.grid.specs.Cells.{before, part, own, distinct};
ghost use Rattle.grid.specs.CellsFacts.{Shaped};
ghost use Rattle.grid.specs.Lent.{mesh_lent};
ghost use Rattle.grid.specs.Mesh.{most_cells, most_vertices, most_edges, kinds_right, edges_right, mesh_checks};

use crate::edge_rule::keeps_edge_rule;
use crate::shape::{count_places, end_of, is_distinct, kinds_known};
use crate::{MOST_CELLS, MOST_EDGES, MOST_VERTICES, Mesh};
use numbers::{all_below, wide};
use refusals::Refusal;

// Check 26.
fn kinds_right(cells: u32, kinds: &[u8]) -> bool
    ensures { result ≡ kinds_right cells kinds.now }
{
    (kinds.len() == wide(cells)) & kinds_known(kinds)
}

// Check 1 but for C's range, of so many kinds.
fn places_right(kinds: &[u8], cell_vertices: &[u32]) -> bool
    requires { length kinds.now ≤ most_cells }
    ensures { result ≡ eqb (length cell_vertices.now) (before own kinds.now (length kinds.now)) }
{
    cell_vertices.len() == count_places(kinds)
}

// Whether no cell has a vertex twice.
fn all_distinct(kinds: &[u8], vertices: &[u32]) -> bool
    requires { Shaped kinds.now vertices.now }
    ensures { result ≡ all (length kinds.now) (λ i. distinct (part own kinds.now vertices.now i)) }
{
    let mut at = 0;
    for &kind in kinds {
        let end = end_of(kind, at);
        if !is_distinct(&vertices[at..end]) {
            return false;
        }
        at = end;
    }
    true
}

// Whether the count of vertices or of edges is in its range, and each number is below it.
fn numbers_right(most: usize, count: u32, numbers: &[u32]) -> bool
    ensures { result ≡ (within 3 most count and all_below numbers.now count) }
{
    (3..=most).contains(&wide(count)) & all_below(numbers, count)
}

// Check 2, of a mesh that passes checks 1 and 26.
fn vertices_right(vertices: u32, kinds: &[u8], cell_vertices: &[u32]) -> bool
    requires { Shaped kinds.now cell_vertices.now }
    ensures { result ≡ every (within 3 most_vertices vertices
        ∷ all_below cell_vertices.now vertices
        ∷ all (length kinds.now) (λ i. distinct (part own kinds.now cell_vertices.now i))
        ∷ []) }
{
    numbers_right(MOST_VERTICES, vertices, cell_vertices) & all_distinct(kinds, cell_vertices)
}

// Check 3 but for the edge rule.
fn edges_sized(edges: u32, kinds: &[u8], cell_edges: &[u32]) -> bool
    requires { length kinds.now ≤ most_cells }
    ensures { result ≡ every (within 3 most_edges edges
        ∷ eqb (length cell_edges.now) (before own kinds.now (length kinds.now))
        ∷ all_below cell_edges.now edges
        ∷ []) }
{
    numbers_right(MOST_EDGES, edges, cell_edges) & (cell_edges.len() == count_places(kinds))
}

// Check 3, of a mesh that passes checks 1, 26 and 2.
fn edges_right(mesh: Mesh) -> bool
    requires shaped { Shaped mesh.kinds.now mesh.cell_vertices.now × (all_below mesh.cell_vertices.now most_vertices ≡ true) }
    requires kinds_len { length mesh.kinds.now ≡ mesh.sizes.cells }
    ensures { result ≡ edges_right (mesh_lent mesh.entry) }
{
    edges_sized(mesh.sizes.edges, mesh.kinds, mesh.cell_edges)
        && keeps_edge_rule(
            mesh.kinds,
            mesh.cell_vertices,
            mesh.cell_edges,
            mesh.sizes.edges as usize,
        )
}

// Why the mesh is turned down, if it is: the first of checks 1, 26, 1, 2 and 3 that it fails.
pub fn mesh_refusal(mesh: Mesh) -> Result<(), Refusal>
    ensures { told result ≡ refusal (mesh_checks (mesh_lent mesh.entry)) }
{
    if !(1..=MOST_CELLS).contains(&wide(mesh.sizes.cells)) {
        return Err(Refusal::Cells);
    }
    if !kinds_right(mesh.sizes.cells, mesh.kinds) {
        return Err(Refusal::Kinds);
    }
    if !places_right(mesh.kinds, mesh.cell_vertices) {
        return Err(Refusal::Cells);
    }
    if !vertices_right(mesh.sizes.vertices, mesh.kinds, mesh.cell_vertices) {
        return Err(Refusal::Vertices);
    }
    if !edges_right(mesh) {
        return Err(Refusal::Edges);
    }
    Ok(())
}
