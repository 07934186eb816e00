// The mesh: the shape of a cell (`shape`), checks 1, 26, 2 and 3 (`checks`), and the edge rule (`edge_rule`).
#![tactic(auto)]

mod checks;
mod edge_rule;
mod shape;

pub use checks::mesh_refusal;
pub use shape::{Rows, corners_of, count_kind, edge_joining, kinds_match, second_of, write_rows};

// The most cells, vertices and edges of a mesh.
pub const MOST_CELLS: usize = 2048;

pub const MOST_VERTICES: usize = 4096;

pub const MOST_EDGES: usize = 8192;

// The numbers of cells, vertices and edges of a mesh.
#[derive(Clone, Copy)]
pub struct Sizes {
    pub cells: u32,
    pub vertices: u32,
    pub edges: u32,
}

// A mesh as it is lent: its sizes, the kind of each cell, and as many vertices and as many edges of each cell as its kind says, one cell after the other.
#[derive(Clone, Copy)]
pub struct Mesh<'a> {
    pub sizes: Sizes,
    pub kinds: &'a [u8],
    pub cell_vertices: &'a [u32],
    pub cell_edges: &'a [u32],
}
