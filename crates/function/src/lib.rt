// Elements on a mesh, and colours.
#![tactic(auto)]

ghost use Rattle.std.specs.Prelude.{◌≡◌, ◌+◌, ◌*◌, ◌≤◌};
ghost use Rattle.numbers.specs.Ranges.{within};
ghost use Rattle.grid.specs.Mesh.{most_cells};
ghost use Rattle.function.specs.Elements.{alike, most_dim, dim_of, element_of, cell_dim, elements_right, dims_right};

use grid::corners_of;
use numbers::wide;

mod colouring;

pub use colouring::cell_colouring;

// The most local DOFs of a cell.
pub const MOST_DIM: usize = 10;

// DOFs per vertex (a), per edge (b) and per cell (c).
#[repr(C)]
#[derive(Clone, Copy, Default)]
pub struct Element {
    pub a: u32,
    pub b: u32,
    pub c: u32,
}

impl Element {
    // The local DOFs of a cell of a kind, which has so many vertices and edges: the number is the byte of the kind. Of any three u32 the sum fits.
    pub fn dim(self, kind: u8) -> usize
        ensures { result ≡ dim_of self kind }
    {
        let n = corners_of(kind);
        n * wide(self.a) + n * wide(self.b) + wide(self.c)
    }
}

// Whether a cell may have so many local DOFs.
fn is_dim(n: usize) -> bool
    ensures { result ≡ within 1 most_dim n }
{
    (1..=MOST_DIM).contains(&n)
}

// An element for each kind of cell. (A kind is a byte, as in the list that C lends.)
#[repr(C)]
#[derive(Clone, Copy, Default)]
pub struct Elements {
    pub triangle: Element,
    pub quad: Element,
}

impl Elements {
    // The element on a cell of a kind.
    pub fn of(self, kind: u8) -> Element
        ensures { result ≡ element_of self kind }
    {
        if kind == 3 { self.triangle } else { self.quad }
    }

    // The local DOFs of a cell of a kind.
    pub fn dim(self, kind: u8) -> usize
        ensures { result ≡ cell_dim self kind }
    {
        let element = self.of(kind);
        element.dim(kind)
    }

    // The local DOFs of so many triangles and quads together. Of elements that hold any u32 the sum fits. (Two counts, here and below: a struct of them would be
    // made at each call, of two fields of planning's numbers.)
    pub fn places(self, triangles: u32, quads: u32) -> usize
        requires { (triangles ≤ most_cells) × (quads ≤ most_cells) }
        ensures { result ≡ triangles * cell_dim self 3 + quads * cell_dim self 4 }
    {
        wide(triangles) * self.dim(3) + wide(quads) * self.dim(4)
    }

    // Check 4 of one side. The element of a kind that is not present is not read.
    fn right(self, triangles: u32, quads: u32) -> bool
        ensures { result ≡ elements_right triangles quads self }
    {
        if quads == 0 {
            return (triangles == 0) | is_dim(self.dim(3));
        }
        if triangles == 0 {
            return is_dim(self.dim(4));
        }
        let triangle = self.triangle;
        let quad = self.quad;
        is_dim(self.dim(3))
            & is_dim(self.dim(4))
            & ((triangle.a == quad.a) & (triangle.b == quad.b))
    }
}

// One element for both kinds.
impl From<Element> for Elements {
    ghost from_gives = { λ e es. es ≡ alike e };

    fn from(element: Element) -> Elements {
        Elements {
            triangle: element,
            quad: element,
        }
    }
}

// Check 4, of a mesh with so many triangles and quads: the dim of each kind present is from 1 to 10, and both kinds have the same a and b. No answer depends on
// the element of a kind that is not present.
pub fn dims_right(triangles: u32, quads: u32, test: Elements, trial: Elements) -> bool
    ensures { result ≡ dims_right triangles quads test trial }
{
    test.right(triangles, quads) & trial.right(triangles, quads)
}
