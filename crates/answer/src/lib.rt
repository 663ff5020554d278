// Definitions and laws only (specs/, proofs/): the answer to a sheet by a plain listing, demand 3 of it, and that the least sizes and codes that a search
// can show are the answer. How find gives it back stands in finder.
#![tactic(auto)]
