// The program `worklist` on the jobs of jobs/, each a file of data/ that tools/make-job made from its text: the paper's, each refusal, jobs cut short and
// longer, and ones too large. Prints the name of the job, then what `worklist` prints.
#![tactic(auto)]

use std::fs::File;
use std::io;

// The jobs.
const NAMES: [&str; 14] = [
    "m4",
    "m5",
    "m7_turned",
    "m7_twice",
    "m8",
    "refused_1",
    "refused_2",
    "refused_3",
    "refused_4",
    "short",
    "longer",
    "large",
    "large_short",
    "large_longer",
];

fn main(rt: HostRuntime) -> io::Result<()> {
    for name in NAMES {
        let mut file = File::open(&rt, name)?;
        println!(rt; "{name}")?;
        worklist_io::answer_file(&rt, &mut file)?;
    }
    Ok(())
}
