// Replays recorded answers of the Rust: each case of data/cases is a mesh with elements, batch size, integrand and lent numbers, and all that the published
// Rust answered. Plans it, plays a whole entries run and a whole dense run, and compares every list, floats by their bits.
// The command `oracle record` of oracle/ made the file; oracle/src/record.rs says what a line holds.
#![tactic(auto)]

mod cases;
mod recorded_runs;

use crate::cases::{Case, GEOMETRY, MOST, Numbers};
use crate::recorded_runs::Planning;
use planning::plan;
use plans::PlanNumbers;
use recorded::{PlanVecs, Words, front};
use std::alloc::AllocError;
use std::fs::File;
use std::io::{self, BufReader, Read};

// How many floats there are, of geometry and in the pool.
const FLOATS: usize = GEOMETRY + 512;

// Whether an accepted planning and both its runs give what is recorded.
fn planning_agrees<R: Read>(
    words: &mut Words<R>,
    case: &Case,
    counts: PlanNumbers,
    lists: &PlanVecs,
    floats: &[f64],
) -> Result<bool, AllocError> {
    let lengths = case.lengths;
    let same = words.are_next(&[counts.rows, counts.columns, counts.distant, counts.touching])
        & words.are_next(front(&lists.test_dofs, lengths.test_dofs))
        & words.are_next(front(&lists.trial_dofs, lengths.trial_dofs))
        & words.are_next(front(&lists.test_colours, lengths.colours))
        & words.are_next(front(&lists.trial_colours, lengths.colours))
        & words.are_next(front(&lists.test_owners, case.test_owners))
        & words.are_next(front(&lists.trial_owners, case.trial_owners))
        & words.are_next(front(&lists.work, lengths.work));
    let places = case.read_places(words)?;
    let planning = Planning {
        case,
        counts,
        plan: lists.plan(lengths, &case.mesh.kinds),
        numbers: Numbers {
            floats,
            places: &places,
        },
    };
    let entries = planning.entries_agree(words)?;
    let dense = planning.matrix_agrees(words)?;
    Ok(same & entries & dense & case.refusal.is_none())
}

// Reads a case whole and replays it.
fn case_agrees<R: Read>(words: &mut Words<R>, floats: &[f64]) -> Result<bool, AllocError> {
    let case = Case::read(words)?;
    let mut lists = PlanVecs::new(words.alloc, MOST)?;
    match plan(
        case.mesh.mesh(),
        case.assembly,
        &mut lists.lent(case.lengths),
    ) {
        Ok(counts) => planning_agrees(words, &case, counts, &lists, floats),
        Err(refusal) => Ok(Some(refusal.number()) == case.refusal),
    }
}

// The file: how many cases, geometry, pool, then the cases. Each that differs is named by its number, from 1.
fn main(rt: HostRuntime) -> io::Result<()> {
    let alloc = rt.alloc();
    let file = BufReader::new(alloc, File::open(&rt, "cases")?)?;
    let mut words = Words::new(file, alloc);
    let n = words.word();
    let floats: Vec<f64> = words.scalars(FLOATS)?;
    let mut differ = 0u64;
    // Counted: each case is read from the words as it comes, and stands in no list.
    for number in 1..=n {
        if !case_agrees(&mut words, &floats)? {
            println!(rt; "differs: case {number}")?;
            differ += 1;
        }
    }
    if !words.is_at_end() {
        println!(rt; "the file has more cases")?;
    }
    println!(rt; "{n} recorded answers of the Rust, {differ} differ")?;
    words.finish()
}
