// Reads one job from standard input and prints its work list, or `refused n`. Here it is run on M4.
#![tactic(auto)]

use std::io;

fn main(rt: HostRuntime) -> io::Result<()> {
    worklist_io::answer_file(&rt, &mut rt.stdin())
}
