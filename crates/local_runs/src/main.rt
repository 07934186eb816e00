// Runs the recorded cases of data/cases, each a pair of cells with what is lent for it, and compares every entry of its local matrix by its bits.
// tools/record_cases.c made the file: a C implementation written from the paper. Its head says how, and what a line holds.
#![tactic(auto)]

mod cases;

use crate::cases::Case;
use recorded::Words;
use std::fs::File;
use std::io::{self, BufReader};

// The groups of cases, in the order of the file, and how many each has.
const GROUPS: [(&str, usize); 12] = [
    ("F1 to F4", 6),
    ("touching, a bare term", 36),
    ("touching, a term with a factor", 20),
    ("touching, two terms", 25),
    ("distant, a bare term", 36),
    ("distant, a term with a factor", 20),
    ("distant, two terms", 25),
    ("subnormal numbers and signed zeros", 30),
    ("values that overflow", 20),
    ("sums that overflow", 14),
    ("NaNs among large values", 10),
    ("infinity minus infinity", 12),
];

// All of them. (By hand: tried as the `sum` of the groups, which the proof has to show to fit; the check does not find that alone.)
const CASES: usize = 254;

// A case is named by its number, which is its line in the file, from 1.
fn main(rt: HostRuntime) -> io::Result<()> {
    let alloc = rt.alloc();
    let file = BufReader::new(alloc, File::open(&rt, "cases")?)?;
    let mut words = Words::new(file, alloc);
    let mut numbers = 1..=CASES;
    // A list for its length: that a count by `+= 1` fits would need an invariant over both loops, and `len` needs none.
    let mut differing = Vec::new(alloc);
    for (name, n) in GROUPS {
        for number in numbers.by_ref().take(n) {
            if !Case::read(&mut words)?.agrees() {
                println!(rt; "differs: case {number}")?;
                differing.push(number)?;
            }
        }
        println!(rt; "{name}: {n} cases")?;
    }
    if !words.is_at_end() {
        println!(rt; "the file has more cases")?;
    }
    let differ = differing.len();
    println!(rt; "{CASES} cases, {differ} differ")?;
    words.finish()
}
