// The columns that are marked in a row, one after another.
ghost use Rattle.std.specs.Prelude.{◌≡◌, ◌+◌, ◌≤◌};
ghost use Rattle.std.specs.Iterator.{at_most};
ghost use Rattle.knowledge.specs.Row.{HandsOut, lowest_bit};

use super::HALF_BITS;

// The columns of a row that are left, as the bits of its two halves: they come lowest first.
#[derive(Drop)]
pub struct Columns {
    pub low: u64,
    pub high: u64,
}

impl Iterator for Columns {
    type Item = usize;

    ghost next_gives = { HandsOut };

    ghost remaining = { λ s. at_most (s.low + s.high) };

    fn next(&mut self) -> Option<usize> {
        if 0 < self.low {
            let k = lowest(self.low);
            self.low &= self.low - 1;
            return Some(k);
        }
        if 0 < self.high {
            let k = HALF_BITS + lowest(self.high);
            self.high &= self.high - 1;
            return Some(k);
        }
        None
    }
}

// The number of the lowest bit of half a row.
fn lowest(w: u64) -> usize
    ensures lowest { result ≡ lowest_bit w }
    ensures below { result ≤ 64 }
{
    w.trailing_zeros() as usize
}
