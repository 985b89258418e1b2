// The claim about runs of calls with an index and the same runs without one; no code.

#![tactic(auto)]
