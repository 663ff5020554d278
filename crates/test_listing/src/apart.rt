// Which pairs of terms some interpretation of the same literals tells apart. Sizes up to the number of terms of each sort settle
// it: the terms' own groups, one code each, are such an interpretation.
use crate::answer::counted;
use crate::keys::{KEY, code_of, key_of, sames_hold};
use crate::ranges::{lists, sizes_at};
use crate::shape::{ROOM, first_tables, shaped, turn};
use test_sheets::numbers::{byte, larger, plus, smaller, wide};
use test_sheets::plan::{MOST_SORTS, MOST_TERMS, PLAN, SORTS, TERMS, count, sort_of};

// A mark for each pair of terms: that of a and b at 16 a + b.
pub const PAIRS: usize = 256;

// How many interpretations have sizes up to the spans, up to the budget.
pub fn structures(p: [u8; PLAN]) -> usize {
    counted(p, spans(p), false)
}

// Lists them all, and marks each pair that one of them tells apart.
pub fn tell_apart(p: [u8; PLAN], pairs: &mut [u8; PAIRS]) {
    let top = spans(p);
    let n = lists(top);
    for v in 0..n {
        tell_at(p, sizes_at(top, v), pairs);
    }
}

// Whether no interpretation tells two terms apart.
pub fn together(pairs: &[u8; PAIRS], a: usize, b: usize) -> bool {
    let k = a % MOST_TERMS * MOST_TERMS + b % MOST_TERMS;
    pairs[k] == 0
}

fn spans(p: [u8; PLAN]) -> [u8; MOST_SORTS] {
    [span(p, 0), span(p, 1), span(p, 2)]
}

// The number of terms of the sort, at least 1; 0 where there is no such sort.
fn span(p: [u8; PLAN], sort: usize) -> u8 {
    let n = count(p, TERMS);
    let mut terms: usize = 0;
    for t in 0..n {
        if wide(sort_of(p, t)) == sort {
            terms = plus(terms, 1);
        }
    }
    if sort < count(p, SORTS) {
        byte(larger(1, terms))
    } else {
        0
    }
}

fn tell_at(p: [u8; PLAN], size: [u8; MOST_SORTS], pairs: &mut [u8; PAIRS]) {
    let mut limit = [0u8; ROOM];
    let s = shaped(p, size, &mut limit);
    let n = s.count;
    let mut tables = first_tables(s);
    for _ in 0..n {
        tell(p, key_of(p, s, &tables), pairs);
        turn(&mut tables, &limit, count(p, SORTS), s.length);
    }
}

fn tell(p: [u8; PLAN], key: [u8; KEY], pairs: &mut [u8; PAIRS]) {
    if sames_hold(p, key) {
        mark(count(p, TERMS), key, pairs);
    }
}

fn mark(terms: usize, key: [u8; KEY], pairs: &mut [u8; PAIRS]) {
    let n = smaller(terms, MOST_TERMS) * MOST_TERMS;
    for k in 0..n {
        if code_of(key, k / MOST_TERMS) != code_of(key, k % MOST_TERMS) {
            pairs[k] = 1;
        }
    }
}
