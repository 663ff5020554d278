// The cells of the answer that no term reaches (docs/FORMAT.md, Which answer). In the table of a symbol with one argument, whose sort is the result's, each
// of them holds its own argument's code; in any other table it holds the code of the symbol's fill, or 0, as in the tables that the listing gives, where
// the symbol has none.
use crate::answer::NOTHING;
use crate::keys::{KEY, code_of, place_of};
use crate::shape::{ROOM, Shape, shaped, stretch_of};
use test_sheets::numbers::{byte, minus, plus, wide};
use test_sheets::plan::{FILLS, PLAN, SYMBOLS, TERMS, count, fill_of, record_at};

// How many of these cells keep a code other than 0, how many hold a fill's code other than 0, and how many keep their code against a fill of another code.
#[derive(Drop)]
pub struct Unforced {
    pub kept: usize,
    pub filled: usize,
    pub against: usize,
}

// Puts into the answer's tables what these cells hold, and counts them.
pub fn fill_tables(p: [u8; PLAN], key: [u8; KEY], tables: &mut [u8; ROOM]) -> Unforced {
    let mut u = Unforced {
        kept: 0,
        filled: 0,
        against: 0,
    };
    if key[0] == NOTHING {
        return u;
    }
    let mut limit = [0u8; ROOM];
    let s = shaped(p, [key[1], key[2], key[3]], &mut limit);
    let n = count(p, SYMBOLS);
    for f in 0..n {
        u = fill_table(p, s, key, f, u, tables);
    }
    u
}

fn fill_table(
    p: [u8; PLAN],
    s: Shape,
    key: [u8; KEY],
    symbol: usize,
    before: Unforced,
    tables: &mut [u8; ROOM],
) -> Unforced {
    let its = stretch_of(s, symbol);
    let n = minus(its.to, its.from);
    let mut u = before;
    for cell in 0..n {
        let place = plus(its.from, cell);
        if !reached(p, s, key, place) {
            u = fill_cell(p, key, symbol, cell, place, u, tables);
        }
    }
    u
}

// A cell by its number in the symbol's table, which is the argument's code where there is one argument.
fn fill_cell(
    p: [u8; PLAN],
    key: [u8; KEY],
    symbol: usize,
    cell: usize,
    place: usize,
    before: Unforced,
    tables: &mut [u8; ROOM],
) -> Unforced {
    let k = place % ROOM;
    let own = byte(cell);
    let mut u = before;
    if to_itself(p, symbol) {
        tables[k] = own;
        u.kept = plus(u.kept, differ(own, 0));
        u.against = plus(u.against, differ(fill_code(p, key, symbol, own), own));
        return u;
    }
    let code = fill_code(p, key, symbol, 0);
    tables[k] = code;
    u.filled = plus(u.filled, differ(code, 0));
    u
}

// Whether the symbol takes one argument, of its result's sort.
fn to_itself(p: [u8; PLAN], symbol: usize) -> bool {
    let y = record_at(p, SYMBOLS, symbol);
    y.length == 2 && y.x == y.y
}

// The code of the symbol's fill, or another one where it has none.
fn fill_code(p: [u8; PLAN], key: [u8; KEY], symbol: usize, other: u8) -> u8 {
    let k = fill_of(p, symbol);
    if count(p, FILLS) <= k {
        return other;
    }
    let r = record_at(p, FILLS, k);
    code_of(key, wide(r.y))
}

// 1 where two codes differ.
fn differ(a: u8, b: u8) -> usize {
    if a == b { 0 } else { 1 }
}

// Whether some term reaches the cell at this place.
fn reached(p: [u8; PLAN], s: Shape, key: [u8; KEY], place: usize) -> bool {
    let n = count(p, TERMS);
    for t in 0..n {
        if place_of(p, s, key, t) == place {
            return true;
        }
    }
    false
}
