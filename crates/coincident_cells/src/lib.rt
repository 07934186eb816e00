// No cell has the same vertices as an earlier one. Two cells that have them meet at each vertex of either, so a cell is held against the cells at one of its
// vertices alone. The cells are read from rows, four numbers a cell: the fourth of a triangle is `none`, the number of no vertex.
#![tactic(auto)]

ghost use Rattle.std.specs.Prelude.{◌≡◌, not, ◌⊎◌, ℕ, ◌+◌, ◌*◌, ◌/◌, ◌≤◌, ◌<◌, length, get_or};
ghost use Rattle.lists.specs.Bounded.{all};
ghost use Rattle.grid.specs.Cells.{has};
ghost use Rattle.cells_by_key.specs.Groups.{Cells, ByEntity};
ghost use Rattle.cell_pairs.specs.Patterns.{same_vertices};
ghost use Rattle.coincident_cells.specs.Differ.{differ_in, differs_in, earlier};
ghost use Rattle.coincident_cells.specs.DifferFacts.{Rise, Vertex};

use cells_by_key::Groups;
use grid::Rows;
use numbers::wide;

// Whether each vertex of a cell is one of another.
fn inside(cell: &[u32], other: &[u32]) -> bool
    ensures { result ≡ all (length cell.now) (λ p. has other.now (get_or cell.now p 0)) }
{
    cell.iter().all(|x| other.contains(x))
}

// Whether two cells have the same vertices.
fn same_vertices(cell: &[u32], other: &[u32]) -> bool
    ensures { result ≡ same_vertices cell.now other.now }
{
    inside(cell, other) && inside(other, cell)
}

// Whether cell j is earlier than cell i and has the same vertices.
fn coincide(rows: Rows, i: usize, j: usize) -> bool
    requires { (4 * i + 4 ≤ length rows.rows.now) × (4 * j + 4 ≤ length rows.rows.now) }
    ensures { result ≡ earlier rows.entry.none rows.entry.rows.now i j }
{
    j < i && same_vertices(rows.cell(i), rows.cell(j))
}

// Whether none of the cells of a list is earlier than cell i and has the same vertices. (`cell_patterns::row_right` has the same line with another test: what
// they share is the library's `all`.)
fn alone(rows: Rows, cells: &[u32], i: usize) -> bool
    requires cells { Cells rows.rows.now cells.now }
    requires i_in_bounds { 4 * i + 4 ≤ length rows.rows.now }
    ensures { result ≡ all (length cells.now) (λ k. not (earlier rows.entry.none rows.entry.rows.now i (get_or cells.now k 0))) }
{
    cells.iter().all(|&j| !coincide(rows, i, wide(j)))
}

// Of two vertices the one at which fewer cells meet.
fn rarer(groups: Groups, v: usize, w: usize) -> usize
    requires v_in_bounds { (v < length groups.ends.now) × (w < length groups.ends.now) }
    requires rise { Rise groups.ends.now }
    ensures { (result ≡ v) ⊎ (result ≡ w) }
{
    if groups.size(v) <= groups.size(w) {
        v
    } else {
        w
    }
}

// Of the first three vertices of cell i one at which the fewest cells meet: on a fan it is not the hub.
fn rarest(rows: Rows, groups: Groups, i: usize) -> usize
    requires i_in_bounds { 4 * i + 4 ≤ length rows.rows.now }
    requires by_index { (k : ℕ) → k < length rows.rows.now → get_or rows.rows.now k 0 < length groups.ends.now }
    requires rise { Rise groups.ends.now }
    ensures { Vertex rows.entry.rows.now i result }
{
    let at = 4 * i;
    let x = wide(rows.rows[at]);
    let y = wide(rows.rows[at + 1]);
    let z = wide(rows.rows[at + 2]);
    rarer(groups, rarer(groups, x, y), z)
}

// Whether cell i has not the same vertices as an earlier cell.
fn differs(rows: Rows, groups: Groups, i: usize) -> bool
    requires rows_len { length rows.rows.now ≡ 4 * (length rows.rows.now / 4) }
    requires by_entity { ByEntity rows.rows.now groups.order.now groups.ends.now }
    requires i_in_bounds { i < length rows.rows.now / 4 }
    ensures { result ≡ differs_in rows.entry.none rows.entry.rows.now i }
{
    alone(rows, groups.group(rarest(rows, groups, i)), i)
}

// Whether no cell has the same vertices as an earlier one. The groups are the cells at vertex 0, then those at vertex 1 and so on.
pub fn cells_differ(rows: Rows, groups: Groups) -> bool
    requires rows_len { length rows.rows.now ≡ 4 * (length rows.rows.now / 4) }
    requires by_entity { ByEntity rows.rows.now groups.order.now groups.ends.now }
    ensures { result ≡ differ_in rows.entry.none (length rows.entry.rows.now / 4) rows.entry.rows.now }
{
    (0..rows.rows.len() / 4).all(|i| differs(rows, groups, i))
}
