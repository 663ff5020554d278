// Find against the first candidate of the listing, its unforced cells filled by the rule, byte for byte, with buffers that are roomy, exact and too short.
use crate::lent::{
    CODES, Lent, TABLES, Want, exact, fewer_codes, fewer_tables, left, number_of, refused, roomy,
    wanted,
};
use test_listing::keys::KEY;
use test_listing::shape::ROOM;
use test_questions::tally::{COUNTS, FOUND, NO_ANSWER, SHORT, expect};
use test_sheets::numbers::smaller;
use test_sheets::plan::PLAN;

pub(crate) fn compare(
    p: [u8; PLAN],
    key: [u8; KEY],
    best: &[u8; ROOM],
    sheet: &[u8],
    counts: &mut [u64; COUNTS],
) {
    let w = wanted(p, key, 11);
    let enough = exact(p);
    let right = agrees(sheet, key, best, w, roomy()) && agrees(sheet, key, best, w, enough);
    expect(right, outcome(w.answer), b"find", sheet, counts);
    if 0 < enough.codes {
        too_short(sheet, fewer_codes(enough), counts);
    }
    if 0 < enough.tables {
        too_short(sheet, fewer_tables(enough), counts);
    }
}

fn outcome(want: usize) -> usize {
    if want == 1011 { NO_ANSWER } else { FOUND }
}

// Either buffer one byte short is refusal 10.
fn too_short(sheet: &[u8], lent: Lent, counts: &mut [u64; COUNTS]) {
    let right = agrees(sheet, [0u8; KEY], &[0u8; ROOM], refused(10), lent);
    expect(right, SHORT, b"find", sheet, counts);
}

// Whether find gives what is wanted and leaves every other byte as it was filled.
fn agrees(sheet: &[u8], key: [u8; KEY], best: &[u8; ROOM], w: Want, lent: Lent) -> bool {
    let mut codes = [lent.fill; CODES];
    let mut tables = [lent.fill; TABLES];
    asked(sheet, &mut codes, &mut tables, lent) == w.answer
        && left(&codes, &tables, key, best, w, lent.fill)
}

// Find's answer as a number.
fn asked(sheet: &[u8], codes: &mut [u8], tables: &mut [u8], lent: Lent) -> usize {
    let c = smaller(lent.codes, codes.len());
    let t = smaller(lent.tables, tables.len());
    number_of(finder::find(sheet, &mut codes[0..c], &mut tables[0..t]))
}
