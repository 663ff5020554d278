// Find, sizes and fitted, over one listing of the candidates, the unforced cells of its answer filled by the rule; find_at, over a listing for each list of
// sizes; and walks through the answer's tables. Gives the answer's sum, NOTHING where there is none.
use crate::{finds, fits, found_at, sized, turns};
use test_listing::answer::{NOTHING, list};
use test_listing::keys::KEY;
use test_listing::shape::{ROOM, shaped};
use test_listing::unforced::fill_tables;
use test_questions::tally::{AGAINST, COUNTS, FILLED, KEPT, LISTED, add};
use test_questions::walks;
use test_sheets::plan::PLAN;

pub(crate) fn compare(p: [u8; PLAN], sheet: &[u8], counts: &mut [u64; COUNTS]) -> u8 {
    let mut best = [0u8; ROOM];
    let key = list(p, &mut best);
    let u = fill_tables(p, key, &mut best);
    add(counts, LISTED, 1);
    add(counts, KEPT, u.kept);
    add(counts, FILLED, u.filled);
    add(counts, AGAINST, u.against);
    finds::compare(p, key, &best, sheet, counts);
    sized::compare(p, key, sheet, counts);
    found_at::compare(p, sheet, counts);
    fits::compare(p, key, &best, sheet, counts);
    if key[0] != NOTHING {
        turns::compare(p, sheet, counts);
        walk_found(p, key, &best, sheet, counts);
    }
    key[0]
}

// Four walks through the tables that find gives.
fn walk_found(
    p: [u8; PLAN],
    key: [u8; KEY],
    best: &[u8; ROOM],
    sheet: &[u8],
    counts: &mut [u64; COUNTS],
) {
    let mut limit = [0u8; ROOM];
    let s = shaped(p, [key[1], key[2], key[3]], &mut limit);
    walks::compare(p, s, best, 4, sheet, counts);
}
