// Find_at with every list of sizes that the listing goes through, within bounds or not, against the first candidate of exactly these sizes, its unforced
// cells filled by the rule, byte for byte, with buffers that are roomy, exact and too short; and with lists that no candidate has.
use crate::lent::{
    CODES, Lent, TABLES, Want, exact, fewer_codes, fewer_tables, left, number_of, refused, roomy,
    wanted,
};
use test_listing::answer::{list_at, tops};
use test_listing::keys::KEY;
use test_listing::ranges::{lists, sizes_at, within};
use test_listing::shape::ROOM;
use test_listing::unforced::fill_tables;
use test_questions::slices::first;
use test_questions::tally::{
    AGAINST_AT, COUNTS, FILLED_AT, FOUND_AT, KEPT_AT, NONE_AT, OUTSIDE, SHORT_AT, SIZE_LISTS,
    WRONG_LIST, add, expect,
};
use test_sheets::numbers::{minus, plus, smaller};
use test_sheets::plan::{MOST_SORTS, PLAN, SORTS, count};

// A size for each sort, and one more.
const SIZES: usize = MOST_SORTS + 1;

// The list of sizes that find_at is given: the first so many bytes.
#[derive(Clone, Copy)]
struct Given {
    size: [u8; SIZES],
    many: usize,
}

pub(crate) fn compare(p: [u8; PLAN], sheet: &[u8], counts: &mut [u64; COUNTS]) {
    let enough = exact(p);
    let top = tops(p);
    let n = lists(top);
    for v in 0..n {
        at_sizes(p, sizes_at(top, v), enough, sheet, counts);
    }
}

fn at_sizes(
    p: [u8; PLAN],
    size: [u8; MOST_SORTS],
    enough: Lent,
    sheet: &[u8],
    counts: &mut [u64; COUNTS],
) {
    let mut best = [0u8; ROOM];
    let key = list_at(p, size, &mut best);
    let u = fill_tables(p, key, &mut best);
    add(counts, SIZE_LISTS, 1);
    add(counts, KEPT_AT, u.kept);
    add(counts, FILLED_AT, u.filled);
    add(counts, AGAINST_AT, u.against);
    let g = Given {
        size: [size[0], size[1], size[2], 0],
        many: count(p, SORTS),
    };
    let w = wanted(p, key, none(p, size));
    answered(g, key, &best, w, enough, sheet, counts);
    too_short(g, enough, sheet, counts);
    if within(p, size) {
        wrong_lists(g, enough, sheet, counts);
    }
}

// The refusal where the listing has no candidate of these sizes that meets every literal.
fn none(p: [u8; PLAN], size: [u8; MOST_SORTS]) -> u8 {
    if within(p, size) { 11 } else { 17 }
}

// The answer in buffers that are roomy, and in buffers that are exact.
fn answered(
    g: Given,
    key: [u8; KEY],
    best: &[u8; ROOM],
    w: Want,
    enough: Lent,
    sheet: &[u8],
    counts: &mut [u64; COUNTS],
) {
    let right = agrees(sheet, g, key, best, w, roomy()) && agrees(sheet, g, key, best, w, enough);
    expect(right, outcome(w.answer), b"find_at", sheet, counts);
}

fn outcome(want: usize) -> usize {
    match want {
        1011 => NONE_AT,
        1017 => OUTSIDE,
        _ => FOUND_AT,
    }
}

// Either buffer one byte short is refusal 10, whatever the sizes.
fn too_short(g: Given, enough: Lent, sheet: &[u8], counts: &mut [u64; COUNTS]) {
    if 0 < enough.codes {
        turned_down(g, 10, fewer_codes(enough), SHORT_AT, sheet, counts);
    }
    if 0 < enough.tables {
        turned_down(g, 10, fewer_tables(enough), SHORT_AT, sheet, counts);
    }
}

// Lists that no candidate has, made of one within bounds: a size too many, and where there is a sort a size too few, 0 as the first size and 17 as the last.
fn wrong_lists(g: Given, enough: Lent, sheet: &[u8], counts: &mut [u64; COUNTS]) {
    let longer = plus(g.many, 1);
    let shorter = minus(g.many, 1);
    wrong_list(with_size(g, g.many, 1, longer), enough, sheet, counts);
    if 0 < g.many {
        wrong_list(with_size(g, shorter, 0, shorter), enough, sheet, counts);
        wrong_list(with_size(g, 0, 0, g.many), enough, sheet, counts);
        wrong_list(with_size(g, shorter, 17, g.many), enough, sheet, counts);
    }
}

// The list with another size at one place, and so many sizes.
fn with_size(g: Given, place: usize, size: u8, many: usize) -> Given {
    let k = place % SIZES;
    let mut other = g;
    other.size[k] = size;
    other.many = many;
    other
}

fn wrong_list(g: Given, enough: Lent, sheet: &[u8], counts: &mut [u64; COUNTS]) {
    turned_down(g, 17, enough, WRONG_LIST, sheet, counts);
    too_short(g, enough, sheet, counts);
}

// A call is refused with this number.
// Kept: the paper's number, against which the product's causes are held.
fn turned_down(
    g: Given,
    number: u8,
    lent: Lent,
    outcome: usize,
    sheet: &[u8],
    counts: &mut [u64; COUNTS],
) {
    let right = agrees(sheet, g, [0u8; KEY], &[0u8; ROOM], refused(number), lent);
    expect(right, outcome, b"find_at", sheet, counts);
}

// Whether find_at gives what is wanted and leaves every other byte as it was filled.
fn agrees(sheet: &[u8], g: Given, key: [u8; KEY], best: &[u8; ROOM], w: Want, lent: Lent) -> bool {
    let mut codes = [lent.fill; CODES];
    let mut tables = [lent.fill; TABLES];
    asked(sheet, g, &mut codes, &mut tables, lent) == w.answer
        && left(&codes, &tables, key, best, w, lent.fill)
}

// Find_at's answer as a number.
fn asked(sheet: &[u8], g: Given, codes: &mut [u8], tables: &mut [u8], lent: Lent) -> usize {
    let c = smaller(lent.codes, codes.len());
    let t = smaller(lent.tables, tables.len());
    number_of(find_at::find_at(
        sheet,
        first(&g.size, g.many),
        &mut codes[0..c],
        &mut tables[0..t],
    ))
}
