// Steps on different files: they do not meet. There is no code here: what is promised of them are definitions, in specs/, and
// their proofs.

#![tactic(auto)]
