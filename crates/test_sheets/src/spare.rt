// Sheets with symbols that few terms use, so that many cells are unforced (docs/FORMAT.md, Which answer) and fills show: at the least sizes random small
// sheets have few such cells. Each sort can have one size only.
use crate::dice::pick;
use crate::draw::records;
use crate::numbers::plus;
use crate::plan::{FILLS, LITERALS, PLAN, SORTS, SYMBOLS, TERMS, TOTAL, count, with};

// Constants, one to three symbols more, up to three terms more, and fills.
pub fn spare(state: &mut u64) -> [u8; PLAN] {
    let size = plus(2, pick(state, 2));
    let a = constants(sorts(size));
    let symbols = plus(1, pick(state, 3));
    let b = records(a, SYMBOLS, symbols, state);
    let terms = pick(state, 4);
    let c = records(b, TERMS, terms, state);
    let fills = plus(1, pick(state, 12));
    let d = records(c, FILLS, fills, state);
    with(d, TOTAL, 6, 1, plus(2, size), 0, 0)
}

// A sort of two codes, and one of this size.
fn sorts(size: usize) -> [u8; PLAN] {
    let a = with([0u8; PLAN], SORTS, 1, 2, 2, 2, 0);
    with(a, SORTS, 1, 2, size, size, 0)
}

// Two constants of each sort, which differ.
fn constants(p: [u8; PLAN]) -> [u8; PLAN] {
    let a = constant(constant(constant(constant(p, 0), 1), 0), 1);
    let b = with(a, LITERALS, 5, 2, 0, 2, 0);
    with(b, LITERALS, 5, 2, 1, 3, 0)
}

// A constant and its term.
fn constant(p: [u8; PLAN], sort: usize) -> [u8; PLAN] {
    let symbol = count(p, SYMBOLS);
    let q = with(p, SYMBOLS, 2, 1, sort, 0, 0);
    with(q, TERMS, 3, 1, symbol, 0, 0)
}
