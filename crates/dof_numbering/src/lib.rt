// The numbering of the DOFs: cell by cell, the cell's vertices, its edges, its interior.
#![tactic(auto)]

ghost use Rattle.std.specs.Prelude.{◌≡◌, ◌++◌, ◌+◌, ◌*◌, ◌<◌, ◌≤◌, length, drop};
ghost use Rattle.std.proofs.lemmas.List.Edits.{sets};
ghost use Rattle.grid.specs.Cells.{before};
ghost use Rattle.grid.specs.Mesh.{most_cells};
ghost use Rattle.function.specs.Elements.{cell_dim};
ghost use Rattle.function.specs.Lent.{space_lent};
ghost use Rattle.dof_numbering.specs.Numbering.{visit, visit_each, visits_of, up_from, owners_on, dof_list, owner_list, dof_count};
ghost use Rattle.dof_numbering.specs.Walk.{most_entities, Sized, Room, Slots, cell_dofs, slot, step, walk};
ghost use Rattle.dof_numbering.specs.DofWalk.{dimension_number, state, Kept};

use function::{Element, Elements};
use grid::{MOST_CELLS, MOST_EDGES, MOST_VERTICES, Mesh, corners_of};
use numbers::wide;

// All vertices, edges and cells of the largest mesh.
const MOST_ENTITIES: usize = MOST_VERTICES + MOST_EDGES + MOST_CELLS;

// What an entity is.
#[derive(Clone, Copy)]
enum Dimension {
    Vertex,
    Edge,
    Cell,
}

impl Dimension {
    // Where the first number of entity x is kept: a place for each vertex, then for each edge, then for each cell.
    fn slot(self, x: u32) -> usize
        ensures { result ≡ slot (dimension_number self) x }
    {
        match self {
            Dimension::Vertex => wide(x),
            Dimension::Edge => MOST_VERTICES + wide(x),
            Dimension::Cell => MOST_VERTICES + MOST_EDGES + wide(x),
        }
    }
}

// Writes n, n + 1, .. into m places from `at` on. (By number: it is what is added to the place and to n.)
fn write_numbers(dofs: &mut [u32], at: usize, n: u32, m: u32)
    requires { (at + m ≤ length dofs.old) × (n + m < 65536) }
    ensures { dofs.new ≡ sets dofs.old at (up_from n m) }
{
    for i in 0..m {
        dofs[at + wide(i)] = n + i;
    }
}

// Writes the owner records of m DOFs on entity x from `at` on. (By number: each record holds its own.)
fn write_owners(owners: &mut [u32], at: usize, dimension: Dimension, x: u32, m: u32)
    requires { (at + 3 * m ≤ length owners.old) × (m < 65536) }
    ensures { owners.new ≡ sets owners.old at (owners_on (dimension_number dimension) x m) }
{
    for place in 0..m {
        let j = at + 3 * wide(place);
        owners[j..j + 3].copy_from_slice(&[dimension as u32, x, place]);
    }
}

// Where the walk stands: the first number of each entity met so far, at its slot (0: not met yet, else 1 more than the number. An Option<u32> would take eight
// bytes for four of the fixed memory, and an Option<NonZeroU32> holds 1 more than the number too); the two lists; the next place in the DOF list, and the next
// free number.
#[derive(Drop)]
struct DofWalk<'a> {
    met: &'a mut [u32; MOST_ENTITIES],
    dofs: &'a mut [u32],
    owners: &'a mut [u32],
    at: usize,
    free: u32,
}

impl<'a> DofWalk<'a> {
    // One visit, of entity x with m DOFs. Where it is met first it gets the next free numbers and its owner records are written.
    fn visit(&mut self, dimension: Dimension, x: u32, m: u32)
        requires x_bound { slot (dimension_number dimension) x < most_entities }
        requires room { Room (state self.old) m }
        ensures walked { state self.new ≡ step (state self.old) (visit (dimension_number dimension) x m) }
        ensures kept { Kept self.old self.new }
    {
        let i = dimension.slot(x);
        let seen = self.met[i];
        let at = self.at;
        self.at = at + wide(m);
        if seen == 0 {
            let n = self.free;
            self.met[i] = n + 1;
            self.free = n + m;
            write_owners(self.owners, 3 * wide(n), dimension, x, m);
            write_numbers(self.dofs, at, n, m);
        } else {
            write_numbers(self.dofs, at, seen - 1, m);
        }
    }

    // Visits each of the entities, which have m DOFs each.
    fn visit_each(&mut self, dimension: Dimension, entities: &[u32], m: u32)
        requires slots { Slots (dimension_number dimension) entities.now }
        requires room { Room (state self.old) (length entities.now * m) }
        ensures walked { state self.new ≡ walk (state self.old) (visit_each (dimension_number dimension) m entities.now) }
        ensures kept { Kept self.old self.new }
    {
        for &x in entities {
            self.visit(dimension, x, m);
        }
    }

    // Visits a cell's vertices, its edges and its interior.
    fn visit_cell(&mut self, cell: u32, vertices: &[u32], edges: &[u32], element: Element)
        requires cell_lt_most_cells { (cell < most_cells) × Slots 0 vertices.now × Slots 1 edges.now }
        requires room { Room (state self.old) (cell_dofs vertices.now edges.now element) }
        ensures walked { state self.new ≡ walk (state self.old) (visits_of cell vertices.now edges.now element) }
        ensures kept { Kept self.old self.new }
    {
        self.visit_each(Dimension::Vertex, vertices, element.a);
        self.visit_each(Dimension::Edge, edges, element.b);
        self.visit(Dimension::Cell, cell, element.c);
    }
}

// Fills the DOF list and the owner records of all cells, and returns how many DOFs there are. The slots have a fixed size, since nothing is allocated. The tail
// of the owner list past the last record stays.
pub fn assign_dofs(mesh: Mesh, elements: Elements, dofs: &mut [u32], owners: &mut [u32]) -> u32
    requires sized { Sized (space_lent mesh elements) (length mesh.kinds.now) }
    requires dofs_len { (length dofs.old ≡ before (cell_dim elements) mesh.kinds.now (length mesh.kinds.now)) × (length owners.old ≡ 3 * before (cell_dim elements) mesh.kinds.now (length mesh.kinds.now)) }
    ensures { (result ≡ dof_count (space_lent mesh.entry elements) (length mesh.entry.kinds.now))
        × (dofs.new ≡ dof_list (space_lent mesh.entry elements) (length mesh.entry.kinds.now))
        × (owners.new ≡ owner_list (space_lent mesh.entry elements) (length mesh.entry.kinds.now)
        ++ drop (3 * dof_count (space_lent mesh.entry elements) (length mesh.entry.kinds.now)) owners.old) }
{
    let mut met = [0u32; MOST_ENTITIES];
    let mut walk = DofWalk {
        met: &mut met,
        dofs,
        owners,
        at: 0,
        free: 0,
    };
    let mut first = 0;
    for (i, &kind) in mesh.kinds.iter().enumerate() {
        let end = first + corners_of(kind);
        walk.visit_cell(
            i as u32,
            &mesh.cell_vertices[first..end],
            &mesh.cell_edges[first..end],
            elements.of(kind),
        );
        first = end;
    }
    walk.free
}
