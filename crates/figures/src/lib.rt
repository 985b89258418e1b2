// Document 01's figures. No code of its own: the table stands in specs/Figures.antt, and that every row
// of it holds in proofs/Hold.antt.

#![tactic(auto)]
