// Group of every term, against the interpretations that tell terms apart.
use crate::tally::{COUNTS, LOWER, NO_TERM, OWN, expect, refusal};
use test_listing::apart::{PAIRS, together};
use test_sheets::numbers::smaller;
use test_sheets::plan::{MOST_TERMS, PLAN, TERMS, count, sort_of};

// Each term, and one that is not there.
pub fn compare(p: [u8; PLAN], pairs: &[u8; PAIRS], sheet: &[u8], counts: &mut [u64; COUNTS]) {
    let n = smaller(count(p, TERMS), MOST_TERMS) + 1;
    for e in 0..n {
        one_term(p, e, pairs, sheet, counts);
    }
}

fn one_term(
    p: [u8; PLAN],
    e: usize,
    pairs: &[u8; PAIRS],
    sheet: &[u8],
    counts: &mut [u64; COUNTS],
) {
    let want = wanted(p, e, pairs);
    expect(
        asked(sheet, e) == want,
        outcome(e, want),
        b"group",
        sheet,
        counts,
    );
}

// The answer, as a number, that the interpretations say: the lowest term of the sort that none of them tells apart from e.
fn wanted(p: [u8; PLAN], e: usize, pairs: &[u8; PAIRS]) -> usize {
    if count(p, TERMS) <= e {
        return 1013;
    }
    for k in 0..e {
        if sort_of(p, k) == sort_of(p, e) && together(pairs, k, e) {
            return k;
        }
    }
    e
}

fn outcome(e: usize, want: usize) -> usize {
    if want < e {
        return LOWER;
    }
    if want == e { OWN } else { NO_TERM }
}

// Group's answer as a number: that of the group, 1000 + number a refusal at place 0.
fn asked(sheet: &[u8], e: usize) -> usize {
    match group::group(sheet, e) {
        Ok(k) => k,
        Err(r) => refusal(r.cause.number(), r.place),
    }
}
