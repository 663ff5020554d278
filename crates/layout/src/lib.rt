// The layout of a sheet: the parsed sheet, and a record tested against it and added to it.
#![tactic(auto)]

pub mod faults; // the causes 3 to 8 and 16
mod fills; // those of a fill
pub mod grow; // the sheet with a record more
pub mod kinds; // the kinds of records

ghost use Rattle.std.specs.Prelude.{◌≡◌};
ghost use Rattle.layout.specs.Layout.{empty};
ghost use Rattle.layout.specs.Packed.{packed};
ghost use Rattle.layout.specs.Payloads.{Short};

use prelude::{MOST_FILLS, MOST_LITERALS, MOST_SORTS, MOST_SYMBOLS, MOST_TERMS};

// A parsed sheet: what its records say, kind by kind in their order. A parameter or an argument that is not there is MISSING.
// Kept: columns with a count beside, and `equal` a byte: `packed` and `view` (specs/Packed.antt) say what each column holds, and propagation lends columns to
// its rules one by one; the product has no heap, and `packed` stands for sheets of any length, so that no limit can be in the type.
#[derive(Clone, Copy)]
pub struct Parsed {
    // sorts: the least and the greatest number of codes
    pub sorts: usize,
    pub floor: [u8; MOST_SORTS],
    pub ceiling: [u8; MOST_SORTS],
    // symbols: the sort that each gives, and the sorts that it takes
    pub symbols: usize,
    pub result: [u8; MOST_SYMBOLS],
    pub param0: [u8; MOST_SYMBOLS],
    pub param1: [u8; MOST_SYMBOLS],
    // terms: the symbol, its arguments, and the sort of the whole
    pub terms: usize,
    pub symbol: [u8; MOST_TERMS],
    pub arg0: [u8; MOST_TERMS],
    pub arg1: [u8; MOST_TERMS],
    pub sort: [u8; MOST_TERMS],
    // literals: 1 for same and 0 for differ, and the two sides
    pub literals: usize,
    pub equal: [u8; MOST_LITERALS],
    pub left: [u8; MOST_LITERALS],
    pub right: [u8; MOST_LITERALS],
    // fills: the symbol, and the term whose code its unforced cells hold
    pub fills: usize,
    pub filled: [u8; MOST_FILLS],
    pub filler: [u8; MOST_FILLS],
    pub total: usize,
}

// A payload of one to three bytes, MISSING for a second or third that is not there.
// Kept: three bytes and a length, not a slice: a test reads all three, also where they are not there (`is_same`, `is_ill_sorted`).
#[derive(Clone, Copy)]
pub struct Payload {
    pub len: usize,
    pub b0: u8,
    pub b1: u8,
    pub b2: u8,
    ghost short: { Short len b1 b2 },
}

// The sheet before its first record.
pub fn nothing() -> Parsed
    ensures { result ≡ packed empty }
{
    Parsed {
        sorts: 0,
        floor: [0u8; MOST_SORTS],
        ceiling: [0u8; MOST_SORTS],
        symbols: 0,
        result: [0u8; MOST_SYMBOLS],
        param0: [0u8; MOST_SYMBOLS],
        param1: [0u8; MOST_SYMBOLS],
        terms: 0,
        symbol: [0u8; MOST_TERMS],
        arg0: [0u8; MOST_TERMS],
        arg1: [0u8; MOST_TERMS],
        sort: [0u8; MOST_TERMS],
        literals: 0,
        equal: [0u8; MOST_LITERALS],
        left: [0u8; MOST_LITERALS],
        right: [0u8; MOST_LITERALS],
        fills: 0,
        filled: [0u8; MOST_FILLS],
        filler: [0u8; MOST_FILLS],
        total: 0,
    }
}
