// Forced on every pair of terms, against the interpretations that tell them apart.
use crate::tally::{COUNTS, FORCED, FREE, NO_PAIR, expect, refusal};
use test_listing::apart::{PAIRS, together};
use test_sheets::numbers::{smaller, times};
use test_sheets::plan::{MOST_TERMS, PLAN, TERMS, count, sort_of};

// Each term, and one that is not there, with each.
pub fn compare(p: [u8; PLAN], pairs: &[u8; PAIRS], sheet: &[u8], counts: &mut [u64; COUNTS]) {
    let m = smaller(count(p, TERMS), MOST_TERMS) + 1;
    let n = times(m, m);
    for k in 0..n {
        pair(p, k / m, k % m, pairs, sheet, counts);
    }
}

fn pair(
    p: [u8; PLAN],
    a: usize,
    b: usize,
    pairs: &[u8; PAIRS],
    sheet: &[u8],
    counts: &mut [u64; COUNTS],
) {
    let want = wanted(p, a, b, pairs);
    expect(
        asked(sheet, a, b) == want,
        outcome(want),
        b"forced",
        sheet,
        counts,
    );
}

// The answer, as a number, that the interpretations say.
fn wanted(p: [u8; PLAN], a: usize, b: usize, pairs: &[u8; PAIRS]) -> usize {
    if count(p, TERMS) <= a || count(p, TERMS) <= b || sort_of(p, a) != sort_of(p, b) {
        return 1013;
    }
    if together(pairs, a, b) { 1 } else { 0 }
}

fn outcome(want: usize) -> usize {
    match want {
        0 => FREE,
        1 => FORCED,
        _ => NO_PAIR,
    }
}

// Forced's answer as a number: 1 yes, 0 no, 1000 + number a refusal at place 0.
fn asked(sheet: &[u8], a: usize, b: usize) -> usize {
    match forced::forced(sheet, a, b) {
        Ok(true) => 1,
        Ok(false) => 0,
        Err(r) => refusal(r.cause.number(), r.place),
    }
}
