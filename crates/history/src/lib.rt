// Whole histories of a service: steps, batches, readings of images and moves to a standby, in any order. There is no code
// here: the promises over histories are definitions, in specs/, and their proofs.

#![tactic(auto)]
