// Bundle on listed sheets as they come, one to eight in turn, and on bundles of a large one, against what the listing says of each: at limits around the sum, in
// reverse order, with sheets of zero bytes behind, and with another sheet at each place.
use crate::bundle_faults;
use bundle::Shares;
use prelude::refusal::Refusal;
use test_listing::answer::{NOTHING, list};
use test_listing::bundles::{Want, spent, wanted};
use test_listing::shape::ROOM;
use test_questions::slices::first;
use test_questions::tally::{
    BUNDLED, BUNDLES, COUNTS, EXCEEDED, NO_BUNDLE, NONE_IN, OVER, PADDED, REPLACED, REVERSED,
    SHARED, SHORT_SHEET, add, expect,
};
use test_sheets::bundles::{BUNDLE, Made, as_kept, record_at, write};
use test_sheets::encode::{SHEET, encode};
use test_sheets::large::large;
use test_sheets::numbers::{byte, minus, smaller, wide};
use test_sheets::tray::{MOST_SHEETS, TRAY, begin, full, keep, many};

// The most that a limit can be.
pub(crate) const MOST: usize = 255;

// How many sheets there are in bundles of one, two, and so on to eight.
const ROUND: usize = 36;

// Keeps a listed sheet and its sum for a bundle of any sheets, and for one of sheets that all have an answer.
pub(crate) fn collect(
    sheet: &[u8],
    sum: u8,
    any: &mut [u8; TRAY],
    answered: &mut [u8; TRAY],
    counts: &mut [u64; COUNTS],
) {
    one_more(sheet, sum, any, counts);
    if sum != NOTHING {
        one_more(sheet, sum, answered, counts);
    }
}

// A large sheet and its sum, for bundles of it.
pub(crate) fn of_large(counts: &mut [u64; COUNTS]) {
    let mut bytes = [0u8; SHEET];
    let mut best = [0u8; ROOM];
    let p = large();
    let n = encode(p, &mut bytes);
    let key = list(p, &mut best);
    of_one(&bytes, n, key[0], counts);
}

// Bundles of one to eight times the same sheet, the first n bytes.
fn of_one(bytes: &[u8; SHEET], n: usize, sum: u8, counts: &mut [u64; COUNTS]) {
    let sheet = first(bytes, n);
    let mut tray = [0u8; TRAY];
    for _ in 0..ROUND {
        one_more(sheet, sum, &mut tray, counts);
    }
}

fn one_more(sheet: &[u8], sum: u8, tray: &mut [u8; TRAY], counts: &mut [u64; COUNTS]) {
    keep(tray, sheet, sum);
    if full(tray) {
        compare(tray, counts);
        begin(tray, sheet, sum);
    }
}

fn compare(tray: &[u8; TRAY], counts: &mut [u64; COUNTS]) {
    let n = many(tray);
    add(counts, BUNDLES, 1);
    add(counts, BUNDLED, n);
    at_limits(tray, as_kept(n), counts);
    let mut turned = as_kept(n);
    turned.reversed = true;
    ask(tray, turned, MOST, REVERSED, counts);
    ask(tray, as_kept(MOST_SHEETS), MOST, PADDED, counts);
    replaced(tray, n, counts);
    bundle_faults::compare(tray, n, counts);
}

// No code at all, one too few, as many as the sums where a limit can be that, and the most.
fn at_limits(tray: &[u8; TRAY], m: Made, counts: &mut [u64; COUNTS]) {
    let all = spent(tray, m, m.records);
    ask(tray, m, 0, SHARED, counts);
    ask(tray, m, smaller(minus(all, 1), MOST), SHARED, counts);
    ask(tray, m, smaller(all, MOST), SHARED, counts);
    ask(tray, m, MOST, SHARED, counts);
}

// Another sheet at each place in turn.
fn replaced(tray: &[u8; TRAY], n: usize, counts: &mut [u64; COUNTS]) {
    for place in 0..n {
        let mut m = as_kept(n);
        m.stand_in = place;
        ask(tray, m, MOST, REPLACED, counts);
    }
}

// Asks about a bundle, and counts what the listings say of it; an answer is counted as is said.
pub(crate) fn ask(
    tray: &[u8; TRAY],
    m: Made,
    limit: usize,
    answer: usize,
    counts: &mut [u64; COUNTS],
) {
    let mut bytes = [0u8; BUNDLE];
    write(tray, m, &mut bytes);
    let w = wanted(tray, m, limit);
    if limit < w.before {
        add(counts, OVER, 1);
    }
    hold(
        &bytes,
        record_at(tray, m, m.records),
        limit,
        w,
        outcome(w.number, answer),
        counts,
    );
}

// Kept: the paper's number, which the listing's answers have (`test_listing::bundles`).
fn outcome(number: u8, answer: usize) -> usize {
    match number {
        0 => answer,
        11 => NONE_IN,
        18 => NO_BUNDLE,
        19 => EXCEEDED,
        _ => SHORT_SHEET,
    }
}

// Bundle is to give what is wanted of the first n bytes.
pub(crate) fn hold(
    bytes: &[u8; BUNDLE],
    n: usize,
    limit: usize,
    w: Want,
    outcome: usize,
    counts: &mut [u64; COUNTS],
) {
    let got = bundle::bundle(first(bytes, n), byte(limit));
    expect(agrees(got, w), outcome, b"bundle", first(bytes, n), counts);
}

fn agrees(got: Result<Shares, Refusal>, w: Want) -> bool {
    match got {
        Ok(shares) => {
            w.number == 0 && check::same(&shares.sums, &w.sums) && wide(shares.left) == w.at
        }
        Err(r) => w.number != 0 && r.cause.number() == w.number && r.place == w.at,
    }
}
