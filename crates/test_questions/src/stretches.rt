// Table of a name on the tables that judge was asked about: the very cells of the listing, and nothing where there is no such symbol.
use crate::slices::{first, rest};
use crate::tally::{COUNTS, EMPTY, STRETCH, expect};
use test_listing::shape::{ROOM, Shape, stretch_of};
use test_sheets::numbers::plus;
use test_sheets::plan::{PLAN, SYMBOLS, count};

// The table of each symbol, and of one that is not there.
pub fn compare(
    p: [u8; PLAN],
    s: Shape,
    tables: &[u8; ROOM],
    sheet: &[u8],
    counts: &mut [u64; COUNTS],
) {
    let n = count(p, SYMBOLS);
    for k in 0..n {
        one_symbol(s, tables, k, sheet, counts);
    }
    nothing(first(tables, s.length), n, sheet, counts);
}

// No such symbol, or tables that are refused.
pub fn nothing(tables: &[u8], symbol: usize, sheet: &[u8], counts: &mut [u64; COUNTS]) {
    let got = judge::table_of(sheet, tables, symbol);
    expect(got.len() == 0, EMPTY, b"table of a name", sheet, counts);
}

fn one_symbol(
    s: Shape,
    tables: &[u8; ROOM],
    symbol: usize,
    sheet: &[u8],
    counts: &mut [u64; COUNTS],
) {
    let its = stretch_of(s, symbol);
    let got = judge::table_of(sheet, first(tables, s.length), symbol);
    let right = plus(its.from, got.len()) == its.to
        && check::same(got, rest(first(tables, its.to), its.from));
    expect(right, STRETCH, b"table of a name", sheet, counts);
}
