// The sheets of the trial: random small ones from a fixed seed, some of them with symbols that few terms use, and some at the limits of fitted sheets.
// They are made and written with no code of the product, and so are bundles of them.
#![tactic(auto)]

pub mod bundles; // bundles of kept sheets, and their bytes
pub mod dice; // random numbers from a seed
pub mod draw; // a sheet at random
pub mod encode; // its bytes
pub mod full; // sheets whose fitted sheet is full, or one record more
pub mod large; // a sheet for bundles, of many bytes and codes
pub mod numbers; // arithmetic that does not wrap
pub mod plan; // a sheet as it is drawn
pub mod spare; // sheets with many unforced cells
pub mod tray; // sheets kept for a bundle
