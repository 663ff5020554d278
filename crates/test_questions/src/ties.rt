// Forced and group, over one listing of the interpretations that tell terms apart.
use crate::tally::{COUNTS, SETTLED, add};
use crate::{forces, groupings};
use test_listing::apart::{PAIRS, tell_apart};
use test_sheets::plan::PLAN;

pub fn compare(p: [u8; PLAN], sheet: &[u8], counts: &mut [u64; COUNTS]) {
    let mut pairs = [0u8; PAIRS];
    tell_apart(p, &mut pairs);
    add(counts, SETTLED, 1);
    forces::compare(p, &pairs, sheet, counts);
    groupings::compare(p, &pairs, sheet, counts);
}
