// Sheets whose fitted sheet has as many expressions or statements as a sheet may have, or more (docs/FORMAT.md, refusal 14). Random small sheets stay
// far below; and the limit of names is beyond every plan, which has at most 16 symbols and 48 codes. Every symbol gives the one code of sort 0, so that
// there is one candidate only.
use crate::plan::{PLAN, SORTS, SYMBOLS, TOTAL, with};

// Sizes 1, 1, 3: 5 codes and 3 pairs of them. 13 tables of nine cells, 2 of three, and more of one make 123 cells and more; so 128 expressions and
// 126 statements, and more of each.
pub fn of_expressions(more: usize) -> [u8; PLAN] {
    let a = sort(sort(sort([0u8; PLAN], 1), 1), 3);
    let b = symbols(symbols(a, 13, 3, 2), 2, 2, 2);
    with(symbols(b, more, 1, 0), TOTAL, 6, 1, 5, 0, 0)
}

// Sizes 1, 9: 10 codes and 36 pairs of them. A table of 81 cells, one of nine, 2 of one, and more of one make 92 cells and more; so 128 statements
// and 102 expressions, and more of each.
pub fn of_statements(more: usize) -> [u8; PLAN] {
    let a = sort(sort([0u8; PLAN], 1), 9);
    let b = symbols(symbols(symbols(a, 1, 3, 1), 1, 2, 1), 2, 1, 0);
    with(symbols(b, more, 1, 0), TOTAL, 6, 1, 10, 0, 0)
}

// One sort more, of this size.
fn sort(p: [u8; PLAN], size: usize) -> [u8; PLAN] {
    with(p, SORTS, 1, 2, size, size, 0)
}

// n symbols more; the length is that of their records, and the arguments are of the sort that is named.
fn symbols(p: [u8; PLAN], n: usize, length: usize, param: usize) -> [u8; PLAN] {
    let mut q = p;
    for _ in 0..n {
        let more = with(q, SYMBOLS, 2, length, 0, param, param);
        q = more;
    }
    q
}
