// Sparse rows, in specs/: what they are, what the call answers, refuses and writes, and what they hold after a whole run.
#![tactic(auto)]
