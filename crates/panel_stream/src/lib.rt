// What the program `panel` holds and shows after any lines. No code of its own: the claim stands in
// specs/PanelStream.antt and its proof in proofs/PanelStream.antt.

#![tactic(auto)]
