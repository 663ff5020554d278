// Judge, table of a name, walk, forced and group, asked about a small sheet and held against the listing of its interpretations. Find, sizes, find_at,
// fitted and bundle are asked by the program test_trial, so that this crate does not wait for the search's proofs.
#![tactic(auto)]

pub mod forces; // forced is asked
pub mod groupings; // group is asked
pub mod judges; // judge is asked
pub mod slices; // parts of bytes
pub mod stretches; // table of a name is asked
pub mod tally; // what was compared
pub mod ties; // forced and group, over one listing
pub mod walks; // walk is asked
