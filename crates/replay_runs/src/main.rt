// Plays recorded lists of calls: each case of data/dense and of data/entries is a planning with its calls, encoded for `replay`, and all that they must answer
// and leave. Plays it by one call of `replay`, and compares the position, every answer and every number of the matrix and of the entry lists, floats by their
// bits. Where planning is accepted in data/entries it then gathers the entry lists, as the calls left them, into sparse rows, and compares the answer and every
// number of their three lists. tools/record_calls.c made the files: a C implementation written from the paper and, for the sparse rows, from the request. Its
// head says how, and what a line holds.
#![tactic(auto)]

mod cases;
mod sparse;

use crate::cases::{Case, MOST, MOST_ENTRIES};
use recorded::{EntryVecs, PlanVecs, Words};
use replay::{Calls, Written, replay};
use std::fs::File;
use std::io::{self, BufReader, Read};

// What stands in the lists before the calls.
const NUMBER_BEFORE: u32 = 65535;

const VALUE_BEFORE: f64 = 0.5;

// Reads a case whole and plays it.
fn case_agrees<R: Read>(rt: &HostRuntime, words: &mut Words<R>) -> io::Result<bool> {
    let alloc = words.alloc;
    let case = Case::read(words)?;
    let mut matrix = words.scalars(case.matrix_count)?;
    let mut lists = PlanVecs::new(alloc, MOST)?;
    let entry_count = case.entry_count.min(MOST_ENTRIES);
    let mut entries = EntryVecs::new(alloc, entry_count, NUMBER_BEFORE, VALUE_BEFORE)?;
    let mut answers = vec![in alloc; NUMBER_BEFORE; case.answer_count]?;
    let played = replay(
        case.mesh.mesh(),
        case.assembly,
        &mut lists.lent(case.lengths),
        case.entries,
        Calls {
            numbers: &case.calls,
            pool: &case.pool,
        },
        &mut Written {
            matrix: &mut matrix,
            entries: entries.lent(),
            answers: &mut answers,
        },
    );
    let answer = played
        .map(|run| (run.position, run.entries))
        .map_err(|refusal| refusal.number());
    let expected = case.played.map(|position| (position, case.entries));
    let mut agrees = (answer == expected)
        & words.are_next(&answers)
        & words.are_next(&matrix)
        & entries.are_next(words);
    if let Some(gathering) = case.gathering {
        let (rows, columns) = played.map_or((0, 0), |run| (run.numbers.rows, run.numbers.columns));
        agrees &= gathering.agrees(words, &entries, rows, columns)?;
    }
    let verdict = if agrees { "agree" } else { "DIFFER" };
    println!(rt; "{case}: {verdict}")?;
    Ok(agrees)
}

// The file: how many cases, then the cases.
fn play(rt: &HostRuntime, path: &str) -> io::Result<()> {
    let alloc = rt.alloc();
    let file = BufReader::new(alloc, File::open(rt, path)?)?;
    let mut words = Words::new(file, alloc);
    let n = words.word();
    let mut differ = 0u64;
    // Counted: each case is read from the words as it comes, and stands in no list.
    for _ in 0..n {
        if !case_agrees(rt, &mut words)? {
            differ += 1;
        }
    }
    if !words.is_at_end() {
        println!(rt; "the file has more cases")?;
    }
    println!(rt; "{n} lists of calls, {differ} differ")?;
    words.finish()
}

fn main(rt: HostRuntime) -> io::Result<()> {
    for path in ["dense", "entries"] {
        play(&rt, path)?;
    }
    Ok(())
}
