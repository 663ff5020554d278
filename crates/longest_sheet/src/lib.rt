// Definitions and laws only (specs/, proofs/): an accepted sheet of 2,545 bytes, the most that one can have. It is read by computation, which takes some
// seconds: a crate of its own spares them every check of the layout.
#![tactic(auto)]
