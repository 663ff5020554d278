// Bundle on what is no bundle: without a record, with a ninth, with one that is cut short or of another kind (18); and on bundles with a sheet that lacks its
// last byte (2) or its total (9), at both ends of the limits.
use crate::bundles::{MOST, ask, hold};
use test_listing::bundles::{TOTAL_BYTES, refused};
use test_questions::tally::{COUNTS, CUT_BUNDLE, NO_BUNDLE, SHORT_SHEET};
use test_sheets::bundles::{BUNDLE, as_kept, record_at, write};
use test_sheets::numbers::{byte, minus, plus, wide};
use test_sheets::tray::{MOST_SHEETS, TRAY, length};

// What is asked of n sheets in a tray.
pub(crate) fn compare(tray: &[u8; TRAY], n: usize, counts: &mut [u64; COUNTS]) {
    ask(tray, as_kept(0), 0, NO_BUNDLE, counts);
    let mut nine = as_kept(MOST_SHEETS + 1);
    nine.stand_in = MOST_SHEETS;
    ask(tray, nine, 0, NO_BUNDLE, counts);
    let mut bytes = [0u8; BUNDLE];
    write(tray, as_kept(n), &mut bytes);
    for place in 0..n {
        one_record(tray, n, place, &bytes, counts);
        one_sheet(tray, n, place, counts);
    }
}

// The record at a place is cut behind its first byte and before its last; its payload is 256 bytes longer than what is left; its kind is 0 to 7, and 265.
fn one_record(
    tray: &[u8; TRAY],
    n: usize,
    place: usize,
    bytes: &[u8; BUNDLE],
    counts: &mut [u64; COUNTS],
) {
    let start = record_at(tray, as_kept(n), place);
    let end = record_at(tray, as_kept(n), plus(place, 1));
    let all = record_at(tray, as_kept(n), n);
    no_bundle(bytes, plus(start, 1), counts);
    no_bundle(bytes, minus(end, 1), counts);
    no_bundle(&longer(bytes, start), end, counts);
    no_bundle(&with_byte(bytes, plus(start, 2), byte(place)), all, counts);
    no_bundle(&with_byte(bytes, plus(start, 3), 1), all, counts);
}

// The record that starts there says 256 bytes more than it has.
fn longer(bytes: &[u8; BUNDLE], start: usize) -> [u8; BUNDLE] {
    let k = plus(start, 1) % BUNDLE;
    with_byte(bytes, k, byte(plus(wide(bytes[k]), 1)))
}

fn with_byte(bytes: &[u8; BUNDLE], at: usize, value: u8) -> [u8; BUNDLE] {
    let k = at % BUNDLE;
    let mut other = *bytes;
    other[k] = value;
    other
}

fn no_bundle(bytes: &[u8; BUNDLE], n: usize, counts: &mut [u64; COUNTS]) {
    hold(bytes, n, 0, refused(18, 0, 0), CUT_BUNDLE, counts);
}

// The sheet at a place lacks bytes, where it has a total.
fn one_sheet(tray: &[u8; TRAY], n: usize, place: usize, counts: &mut [u64; COUNTS]) {
    if 0 < length(tray, place) {
        short(tray, n, place, 1, counts);
        short(tray, n, place, TOTAL_BYTES, counts);
    }
}

fn short(tray: &[u8; TRAY], n: usize, place: usize, missing: usize, counts: &mut [u64; COUNTS]) {
    let mut m = as_kept(n);
    m.short = place;
    m.missing = missing;
    ask(tray, m, 0, SHORT_SHEET, counts);
    ask(tray, m, MOST, SHORT_SHEET, counts);
}
