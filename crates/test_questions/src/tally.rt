// What was compared, how often, and where the entry points and the listing differ.
use test_sheets::numbers::{minus, wide};
use test_sheets::plan::{FILLS, LITERALS, PLAN, SORTS, SYMBOLS, TERMS, count, record_at};

pub const COUNTS: usize = 68;

// The counts, in the order of the report.
pub const SHEETS: usize = 0;

pub const NO_SORTS: usize = 1;

pub const NO_SYMBOLS: usize = 2;

pub const NO_TERMS: usize = 3;

pub const NO_LITERALS: usize = 4;

pub const CROSSED: usize = 5;

pub const WITH_FILL: usize = 6;

pub const LISTED: usize = 7;

pub const CANDIDATES: usize = 8;

pub const FOUND: usize = 9;

pub const NO_ANSWER: usize = 10;

pub const SHORT: usize = 11;

pub const KEPT: usize = 12;

pub const FILLED: usize = 13;

pub const AGAINST: usize = 14;

pub const FITS: usize = 15;

pub const OUT_OF_BOUNDS: usize = 16;

pub const BROKEN: usize = 17;

pub const DAMAGED: usize = 18;

pub const STRETCH: usize = 19;

pub const EMPTY: usize = 20;

pub const SETTLED: usize = 21;

pub const STRUCTURES: usize = 22;

pub const FORCED: usize = 23;

pub const FREE: usize = 24;

pub const NO_PAIR: usize = 25;

pub const LOWER: usize = 26;

pub const OWN: usize = 27;

pub const NO_TERM: usize = 28;

pub const FITTED: usize = 29;

pub const NOT_FITTED: usize = 30;

pub const TOO_MANY: usize = 31;

pub const TOO_SHORT: usize = 32;

pub const FOUND_AGAIN: usize = 33;

pub const WALKS: usize = 34;

pub const WALKED: usize = 35;

pub const WALKED_CODES: usize = 36;

pub const SHORT_TRAIL: usize = 37;

pub const WALK_DAMAGED: usize = 38;

pub const NO_WALK: usize = 39;

pub const SIZED: usize = 40;

pub const NOT_SIZED: usize = 41;

pub const SHORT_SIZED: usize = 42;

pub const SIZE_LISTS: usize = 43;

pub const FOUND_AT: usize = 44;

pub const NONE_AT: usize = 45;

pub const OUTSIDE: usize = 46;

pub const WRONG_LIST: usize = 47;

pub const SHORT_AT: usize = 48;

pub const KEPT_AT: usize = 49;

pub const FILLED_AT: usize = 50;

pub const AGAINST_AT: usize = 51;

pub const IN_TURN: usize = 52;

pub const SECOND_FILL: usize = 53;

pub const BEHIND_FILL: usize = 54;

pub const BUNDLES: usize = 55;

pub const BUNDLED: usize = 56;

pub const SHARED: usize = 57;

pub const EXCEEDED: usize = 58;

pub const NONE_IN: usize = 59;

pub const SHORT_SHEET: usize = 60;

pub const OVER: usize = 61;

pub const REVERSED: usize = 62;

pub const PADDED: usize = 63;

pub const REPLACED: usize = 64;

pub const NO_BUNDLE: usize = 65;

pub const CUT_BUNDLE: usize = 66;

pub const DIFFERENCES: usize = 67;

pub fn add(counts: &mut [u64; COUNTS], at: usize, n: usize) {
    let k = at % COUNTS;
    counts[k] = std::num::wrapping_add_u64(counts[k], n as u64);
}

// Counts the sheet and what is special about it.
pub fn tried(p: [u8; PLAN], counts: &mut [u64; COUNTS]) {
    add(counts, SHEETS, 1);
    add(counts, NO_SORTS, none(p, SORTS));
    add(counts, NO_SYMBOLS, none(p, SYMBOLS));
    add(counts, NO_TERMS, none(p, TERMS));
    add(counts, NO_LITERALS, none(p, LITERALS));
    add(counts, CROSSED, crossed(p));
    add(counts, WITH_FILL, minus(1, none(p, FILLS)));
}

// Counts an outcome that the listing says, and prints the sheet where the answer to the question is another one.
pub fn expect(
    agrees: bool,
    outcome: usize,
    question: &[u8],
    sheet: &[u8],
    counts: &mut [u64; COUNTS],
) {
    add(counts, outcome, 1);
    if !agrees {
        add(counts, DIFFERENCES, 1);
        io::write_all(1, question);
        io::write_all(1, b" differs on ");
        print_hex(sheet);
        io::write_all(1, b"\n");
    }
}

// A refusal as a number: 1000 and its number at place 0, and no such number elsewhere.
// Kept: the paper's number, as a question's whole answer is compared as one number.
pub fn refusal(number: u8, place: usize) -> usize {
    if place == 0 {
        1000 + wide(number)
    } else {
        2000
    }
}

pub fn report(counts: &[u64; COUNTS]) {
    let n = report_find(counts, report_sheets(counts, 0));
    let m = report_forced(counts, report_judge(counts, n));
    let k = report_fitted(counts, report_group(counts, m));
    let l = report_sizes(counts, report_walk(counts, k));
    let r = report_fills(counts, report_find_at(counts, l));
    let b = report_bundle(counts, r);
    fill(b"differences #\n", counts, b);
}

fn report_sheets(counts: &[u64; COUNTS], n: usize) -> usize {
    fill(
        b"sheets #\n- without fields #\n- without names #\n- without expressions #\n- without statements #\n- with a floor above its ceiling #\n- with a fill #\n",
        counts,
        n,
    )
}

fn report_find(counts: &[u64; COUNTS], n: usize) -> usize {
    fill(
        b"find and judge: sheets #\n- interpretations listed #\n- found #\n- refused 11 #\n- refused 10, a buffer one byte short #\n- unforced cells that keep a code other than 0 #\n- unforced cells that hold a fill's code other than 0 #\n- unforced cells that keep their code against a fill #\n",
        counts,
        n,
    )
}

fn report_judge(counts: &[u64; COUNTS], n: usize) -> usize {
    fill(
        b"- fits #\n- out of bounds #\n- broken statement #\n- refused 12, damaged tables #\ntable of a name: tables #\n- empty, no such name or damaged tables #\n",
        counts,
        n,
    )
}

fn report_forced(counts: &[u64; COUNTS], n: usize) -> usize {
    fill(
        b"forced: sheets #\n- interpretations listed #\n- yes #\n- no #\n- refused 13 #\n",
        counts,
        n,
    )
}

fn report_group(counts: &[u64; COUNTS], n: usize) -> usize {
    fill(
        b"group: a lower number #\n- the expression's own number #\n- refused 13 #\n",
        counts,
        n,
    )
}

fn report_fitted(counts: &[u64; COUNTS], n: usize) -> usize {
    fill(
        b"fitted: written #\n- refused 11 #\n- refused 14 #\n- refused 10, a buffer one byte short #\n- find gives the old names their tables again #\n",
        counts,
        n,
    )
}

fn report_walk(counts: &[u64; COUNTS], n: usize) -> usize {
    fill(
        b"walk: walks #\n- written #\n- codes written #\n- refused 10, a start past the end or too few bytes behind it #\n- refused 12, damaged tables #\n- refused 15 #\n",
        counts,
        n,
    )
}

fn report_sizes(counts: &[u64; COUNTS], n: usize) -> usize {
    fill(
        b"sizes: given #\n- refused 11 #\n- refused 10, a buffer one byte short #\n",
        counts,
        n,
    )
}

fn report_find_at(counts: &[u64; COUNTS], n: usize) -> usize {
    fill(
        b"find_at: lists of sizes #\n- found #\n- refused 11 #\n- refused 17, out of bounds #\n- refused 17, a size too many, too few, 0 or 17 #\n- refused 10, a buffer one byte short #\n- unforced cells that keep a code other than 0 #\n- unforced cells that hold a fill's code other than 0 #\n- unforced cells that keep their code against a fill #\n- at the sizes that sizes gives, what find gives #\n",
        counts,
        n,
    )
}

fn report_fills(counts: &[u64; COUNTS], n: usize) -> usize {
    fill(
        b"fills: a second one, refused 16 #\n- a statement behind one, refused 3 #\n",
        counts,
        n,
    )
}

fn report_bundle(counts: &[u64; COUNTS], n: usize) -> usize {
    fill(
        b"bundle: bundles #\n- sheets in them #\n- sums and what is left #\n- refused 19 #\n- refused 11 at its sheet #\n- refused 2 or 9, a sheet without its last byte or its total #\n- refused 11, 2 or 9, the sums before it above the limit #\n- in reverse order, the same left #\n- with sheets of zero bytes behind, the same left #\n- a sheet replaced, the other sums as they were #\n- refused 18, no record or a ninth #\n- refused 18, a record cut short or of another kind #\n",
        counts,
        n,
    )
}

// Writes the text with a count in place of each #, from count n on, and gives the number of the next count.
fn fill(text: &[u8], counts: &[u64; COUNTS], n: usize) -> usize {
    let mut next = n;
    for k in 0..text.len() {
        if text[k] == b'#' {
            let c = next % COUNTS;
            io::print_decimal(1, counts[c]);
            next = c + 1;
        } else {
            io::write_all(1, &text[k..k + 1]);
        }
    }
    next
}

// 1 where a part has no record.
fn none(p: [u8; PLAN], part: usize) -> usize {
    if count(p, part) == 0 { 1 } else { 0 }
}

// 1 where some sort has its floor above its ceiling.
fn crossed(p: [u8; PLAN]) -> usize {
    let a = record_at(p, SORTS, 0);
    let b = record_at(p, SORTS, 1);
    let c = record_at(p, SORTS, 2);
    if a.y < a.x || b.y < b.x || c.y < c.x {
        1
    } else {
        0
    }
}

fn print_hex(bytes: &[u8]) {
    for k in 0..bytes.len() {
        io::print_hex(1, long(bytes[k]), 2);
    }
}

fn long(x: u8) -> u64 {
    x as u64
}
