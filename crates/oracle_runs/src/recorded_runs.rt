// Whole runs on recorded numbers. A refused call does not move its run, and that shows at the end.
use crate::cases::{Case, GEOMETRY, Numbers, PLACE_NUMBERS};
use boundary_assemblers::Run;
use cell_pairs::DISTANT;
use plans::{Plan, PlanNumbers};
use recorded::{EntryVecs, Words};
use scatter::EntryLists;
use std::alloc::AllocError;
use std::io::Read;

/// A planning that was accepted, and what its pairs are lent.
#[derive(Clone, Copy)]
pub struct Planning<'a> {
    pub case: &'a Case,
    pub counts: PlanNumbers,
    pub plan: Plan<'a>,
    pub numbers: Numbers<'a>,
}

impl Planning<'_> {
    // Whether a run has come to the end of the places.
    fn is_at_end(self, run: Run) -> bool {
        run.position as usize == self.case.places / PLACE_NUMBERS
    }

    // A whole entries run: as many adds as planning counts, which stand in no list.
    fn play_entries(self, lists: &mut EntryLists<'_>) -> Run {
        let mut run = Run::begin_entries(self.counts);
        for _ in 0..self.counts.touching {
            let lent = self.case.touching(self.numbers, run.position);
            let (next, _) = run.add_entries(self.plan, lent, lists);
            run = next;
        }
        run
    }

    // The run after the add that the record at its position asks for.
    fn add(self, run: Run, matrix: &mut [f64]) -> Run {
        let (run, record) = run.look(self.plan);
        let Ok(record) = record else {
            return run;
        };
        let (next, _) = if record.pattern == DISTANT {
            let lent = self.case.distant(self.numbers, run.position);
            run.add_distant(self.plan, lent, matrix)
        } else {
            let lent = self.case.touching(self.numbers, run.position);
            run.add_touching(self.plan, lent, matrix)
        };
        next
    }

    // A whole dense run, each pair added as its record asks: as many adds as there are records of places.
    fn play_matrix(self, matrix: &mut [f64]) -> Run {
        let mut run = Run::begin(self.counts);
        for _ in 0..self.case.places / PLACE_NUMBERS {
            run = self.add(run, matrix);
        }
        run
    }

    /// Whether an entries run writes the recorded entries.
    pub fn entries_agree<R: Read>(self, words: &mut Words<R>) -> Result<bool, AllocError> {
        let mut lists = EntryVecs::new(words.alloc, self.case.entries, 0, 0.0)?;
        let run = self.play_entries(&mut lists.lent());
        Ok(lists.are_next(words) & self.is_at_end(run))
    }

    /// Whether a dense run, from the front of the pool, gives the recorded matrix. (From all floats where the pool is shorter.)
    pub fn matrix_agrees<R: Read>(self, words: &mut Words<R>) -> Result<bool, AllocError> {
        let floats = self.numbers.floats;
        let begin = floats
            .get(GEOMETRY..)
            .and_then(|pool| pool.get(..self.case.matrix))
            .unwrap_or(floats);
        let mut matrix = Vec::from_slice(words.alloc, begin)?;
        let run = self.play_matrix(&mut matrix);
        Ok(words.are_next(&matrix) & self.is_at_end(run))
    }
}
