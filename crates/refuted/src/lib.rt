// Definitions and laws only (specs/, proofs/): the wrong programs of docs/CONTRACTS.md, "Contracts owed", c, and those of the requests; and that no
// program that meets its contract is one of them.
#![tactic(auto)]
