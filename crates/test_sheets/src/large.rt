// A sheet of 375 bytes whose smallest sum is 33: its length takes both bytes of a head, and eight such sums exceed every limit of a bundle. Random small sheets
// stay far below.
use crate::plan::{FILLS, LITERALS, PLAN, SAME, SORTS, SYMBOLS, TERMS, TOTAL, with};

// Sizes 1, 16, 16, and 16 constants of the sort that has one code; so there is one candidate only.
pub fn large() -> [u8; PLAN] {
    let a = with([0u8; PLAN], SORTS, 1, 2, 1, 1, 0);
    let b = with(with(a, SORTS, 1, 2, 16, 16, 0), SORTS, 1, 2, 16, 16, 0);
    let mut q = with(b, TOTAL, 6, 1, 33, 0, 0);
    for k in 0..16 {
        let more = constant(q, k);
        q = more;
    }
    q
}

// Constant k, its term, which is the same as the first, and its fill.
fn constant(p: [u8; PLAN], k: usize) -> [u8; PLAN] {
    let a = with(p, SYMBOLS, 2, 1, 0, 0, 0);
    let b = with(a, TERMS, 3, 1, k, 0, 0);
    let c = with(b, LITERALS, SAME, 2, 0, k, 0);
    with(c, FILLS, 7, 2, k, k, 0)
}
