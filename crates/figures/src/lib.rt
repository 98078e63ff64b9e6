// There is no code here: specs/Figures.antt has the documents' figures in one table, and proofs/Figures.antt the claim that all of them agree.
#![tactic(auto)]
