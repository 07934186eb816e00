// The lists of a case: those of its mesh, those that planning writes, and those of an entries run.
ghost use Rattle.std.specs.Prelude.{◌≡◌, length, min, take};

use crate::{Scalar, Words};
use grid::{Mesh, Sizes};
use plans::{Plan, PlanLists};
use scatter::EntryLists;
use std::alloc::{AllocError, Global};
use std::io::Read;

/// The lengths of a mesh's lists and of those that planning writes. Both sides have as many colours. (Flat, as they stand in the file: side by side, and the
/// colours once.)
#[derive(Clone, Copy)]
pub struct PlanLengths {
    pub cell_vertices: usize,
    pub test_dofs: usize,
    pub trial_dofs: usize,
    pub colours: usize,
    pub test_owners: usize,
    pub trial_owners: usize,
    pub work: usize,
}

impl PlanLengths {
    /// The first seven lengths of a case, from the next word on.
    pub fn read<R: Read>(words: &mut Words<R>) -> Self {
        words.finish_word();
        PlanLengths {
            cell_vertices: usize::next_in(words),
            test_dofs: usize::next_in(words),
            trial_dofs: usize::next_in(words),
            colours: usize::next_in(words),
            test_owners: usize::next_in(words),
            trial_owners: usize::next_in(words),
            work: usize::next_in(words),
        }
    }
}

/// The first n numbers of a list, or all where they are fewer.
pub fn front<T>(list: &[T], n: usize) -> &[T]
    ensures { result.now ≡ take (min n (length list.now)) list.now }
{
    &list[..n.min(list.len())]
}

// The same of a list that is written.
fn room(list: &mut [u32], n: usize) -> &mut [u32] {
    let end = n.min(list.len());
    &mut list[..end]
}

/// A mesh.
#[derive(Drop)]
pub struct MeshVecs {
    pub sizes: Sizes,
    pub kinds: Vec<u8>,
    pub cell_vertices: Vec<u32>,
    pub cell_edges: Vec<u32>,
}

impl MeshVecs {
    /// A mesh of these kinds, whose other two lists are the next ones, each of n numbers.
    pub fn read<R: Read>(
        words: &mut Words<R>,
        sizes: Sizes,
        kinds: Vec<u8>,
        n: usize,
    ) -> Result<Self, AllocError> {
        Ok(MeshVecs {
            sizes,
            kinds,
            cell_vertices: words.scalars(n)?,
            cell_edges: words.scalars(n)?,
        })
    }

    pub fn mesh(&self) -> Mesh<'_> {
        Mesh {
            sizes: self.sizes,
            kinds: &self.kinds,
            cell_vertices: &self.cell_vertices,
            cell_edges: &self.cell_edges,
        }
    }
}

/// The lists that planning writes. (Flat, as `PlanLists`, to which they are lent: a struct of a side with its `new` is sixteen lines, and takes off eight.)
#[derive(Drop)]
pub struct PlanVecs {
    pub test_dofs: Vec<u32>,
    pub trial_dofs: Vec<u32>,
    pub test_colours: Vec<u32>,
    pub trial_colours: Vec<u32>,
    pub test_owners: Vec<u32>,
    pub trial_owners: Vec<u32>,
    pub work: Vec<u32>,
}

impl PlanVecs {
    /// Lists of zeros, each as long as it is in any case.
    pub fn new(alloc: Global, most: PlanLengths) -> Result<Self, AllocError> {
        Ok(PlanVecs {
            test_dofs: vec![in alloc; 0; most.test_dofs]?,
            trial_dofs: vec![in alloc; 0; most.trial_dofs]?,
            test_colours: vec![in alloc; 0; most.colours]?,
            trial_colours: vec![in alloc; 0; most.colours]?,
            test_owners: vec![in alloc; 0; most.test_owners]?,
            trial_owners: vec![in alloc; 0; most.trial_owners]?,
            work: vec![in alloc; 0; most.work]?,
        })
    }

    /// The fronts of the lists that have these lengths, to be written.
    pub fn lent(&mut self, lengths: PlanLengths) -> PlanLists<'_> {
        PlanLists {
            test_dofs: room(&mut self.test_dofs, lengths.test_dofs),
            trial_dofs: room(&mut self.trial_dofs, lengths.trial_dofs),
            test_colours: room(&mut self.test_colours, lengths.colours),
            trial_colours: room(&mut self.trial_colours, lengths.colours),
            test_owners: room(&mut self.test_owners, lengths.test_owners),
            trial_owners: room(&mut self.trial_owners, lengths.trial_owners),
            work: room(&mut self.work, lengths.work),
        }
    }

    /// The plan in them for a run on cells of these kinds. (Not by `lent(lengths).plan(kinds)`: the plan would borrow from the lent lists, which end with this
    /// call.)
    pub fn plan<'a>(&'a self, lengths: PlanLengths, kinds: &'a [u8]) -> Plan<'a> {
        Plan {
            kinds,
            test_dofs: front(&self.test_dofs, lengths.test_dofs),
            trial_dofs: front(&self.trial_dofs, lengths.trial_dofs),
            work: front(&self.work, lengths.work),
        }
    }
}

/// The lists that an entries run writes.
#[derive(Drop)]
pub struct EntryVecs {
    pub rows: Vec<u32>,
    pub columns: Vec<u32>,
    pub values: Vec<f64>,
}

impl EntryVecs {
    /// Lists of n entries, each of this row, column and value.
    pub fn new(alloc: Global, n: usize, number: u32, value: f64) -> Result<Self, AllocError> {
        Ok(EntryVecs {
            rows: vec![in alloc; number; n]?,
            columns: vec![in alloc; number; n]?,
            values: vec![in alloc; value; n]?,
        })
    }

    /// The lists, to be written.
    pub fn lent(&mut self) -> EntryLists<'_> {
        EntryLists {
            rows: &mut self.rows,
            columns: &mut self.columns,
            values: &mut self.values,
        }
    }

    /// Whether the next lists are these.
    pub fn are_next<R: Read>(&self, words: &mut Words<R>) -> bool {
        words.are_next(&self.rows) & words.are_next(&self.columns) & words.are_next(&self.values)
    }
}
