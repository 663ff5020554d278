// The literals of a sheet, as propagation reads them.
ghost use Rattle.std.specs.Prelude.{◌≤◌};
ghost use Rattle.prelude.specs.Limits.{most_literals};

use prelude::MOST_LITERALS;

// Of the first m literals: 1 for same and 0 for differ, and the two sides.
#[derive(Clone, Copy)]
pub struct Literals<'a> {
    pub equal: &'a [u8; MOST_LITERALS],
    pub left: &'a [u8; MOST_LITERALS],
    pub right: &'a [u8; MOST_LITERALS],
    pub m: usize,
    pub ghost few: { m ≤ most_literals },
}
