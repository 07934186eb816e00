// The run's calls, the machine that a run is set beside, and the third property: specs/ alone.
#![tactic(auto)]
