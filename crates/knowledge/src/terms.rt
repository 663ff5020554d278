// The terms of a sheet, as propagation reads them.
ghost use Rattle.std.specs.Prelude.{◌≤◌};
ghost use Rattle.prelude.specs.Limits.{most_terms};

use prelude::MOST_TERMS;

// The symbol, the arguments and the sort of each of the first n terms.
#[derive(Clone, Copy)]
pub struct Terms<'a> {
    pub symbol: &'a [u8; MOST_TERMS],
    pub arg0: &'a [u8; MOST_TERMS],
    pub arg1: &'a [u8; MOST_TERMS],
    pub sort: &'a [u8; MOST_TERMS],
    pub n: usize,
    pub ghost few: { n ≤ most_terms },
}
