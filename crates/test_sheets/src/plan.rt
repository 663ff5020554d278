// A sheet as it is drawn: what its records say (docs/FORMAT.md, The words used here). The listing works from this, never from the
// sheet's bytes.
ghost use Rattle.std.specs.Prelude.{◌≤◌};

use crate::numbers::{byte, wide};

pub const MOST_SORTS: usize = 3;

pub const MOST_SYMBOLS: usize = 16;

pub const MOST_TERMS: usize = 16;

// A plan is a row of bytes, since a check is slow on structs that hold structs: how many records each of its parts has, and then 16 places
// for records of each part. What stands past the last record of a part is 0.
pub const PLAN: usize = 488;

// The parts, in the order of the sheet.
pub const SORTS: usize = 0;

pub const SYMBOLS: usize = 1;

pub const TERMS: usize = 2;

pub const LITERALS: usize = 3;

pub const FILLS: usize = 4;

pub const TOTAL: usize = 5;

pub const PARTS: usize = 6;

// A record: its kind on the sheet, how many numbers it has, and these; what stands past them is nothing. They are the floor and the ceiling
// of a sort; the result's sort of a symbol and the sort of each argument; the symbol of a term and each argument; the two sides of a literal;
// the symbol of a fill and its term; the total.
#[derive(Drop)]
pub struct Record {
    pub kind: u8,
    pub length: u8,
    pub x: u8,
    pub y: u8,
    pub z: u8,
}

// The kind of the literals that say same; the others are of the kind after it.
pub const SAME: u8 = 4;

// How many records a part has.
pub fn count(p: [u8; PLAN], part: usize) -> usize {
    let k = part % PARTS;
    wide(p[k])
}

pub fn record_at(p: [u8; PLAN], part: usize, k: usize) -> Record {
    let i = place(part, k);
    Record {
        kind: p[i],
        length: p[i + 1],
        x: p[i + 2],
        y: p[i + 3],
        z: p[i + 4],
    }
}

// The plan with one record more in a part.
pub fn with(
    p: [u8; PLAN],
    part: usize,
    kind: u8,
    length: usize,
    x: usize,
    y: usize,
    z: usize,
) -> [u8; PLAN] {
    let n = count(p, part) % 16;
    let i = place(part, n);
    let mut q = p;
    q[i] = kind;
    q[i + 1] = byte(length);
    q[i + 2] = byte(x);
    q[i + 3] = byte(y);
    q[i + 4] = byte(z);
    let k = part % PARTS;
    q[k] = byte(n + 1);
    q
}

// The sort of a term: that of its symbol's result.
pub fn sort_of(p: [u8; PLAN], term: usize) -> u8 {
    let t = record_at(p, TERMS, term);
    let y = record_at(p, SYMBOLS, wide(t.x));
    y.x
}

// The number of the symbol's fill, or how many fills there are where it has none.
pub fn fill_of(p: [u8; PLAN], symbol: usize) -> usize {
    let n = count(p, FILLS);
    for k in 0..n {
        let r = record_at(p, FILLS, k);
        if wide(r.x) == symbol {
            return k;
        }
    }
    n
}

fn place(part: usize, k: usize) -> usize
    ensures { result ≤ 483 }
{
    8 + part % PARTS * 80 + k % 16 * 5
}
