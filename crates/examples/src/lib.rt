// The paper's examples: specs/ alone.
#![tactic(auto)]
