// Judge, table of a name and walk on tables of every size around the bounds, against what the literals say of their codes, and on damaged
// tables.
use crate::slices::first;
use crate::tally::{BROKEN, COUNTS, DAMAGED, FITS, OUT_OF_BOUNDS, expect, refusal};
use crate::{stretches, walks};
use tables::Judgement;
use test_listing::answer::tops;
use test_listing::keys::{first_broken, key_of};
use test_listing::ranges::{lists, sizes_at, within};
use test_listing::shape::{ROOM, Shape, first_tables, shaped, turn};
use test_sheets::numbers::{minus, plus};
use test_sheets::plan::{LITERALS, MOST_SORTS, PLAN, SORTS, count};

// Every list of sizes within bounds, and some out of bounds.
pub fn compare(p: [u8; PLAN], sheet: &[u8], counts: &mut [u64; COUNTS]) {
    let top = tops(p);
    let n = lists(top);
    let gap = n / 8 + 1;
    for v in 0..n {
        at_sizes(p, sizes_at(top, v), v % 6, v % gap == 0, sheet, counts);
    }
}

// Some of the tables within bounds, or, where asked for, the first that is out of bounds; and a damaged one.
fn at_sizes(
    p: [u8; PLAN],
    size: [u8; MOST_SORTS],
    way: usize,
    outside: bool,
    sheet: &[u8],
    counts: &mut [u64; COUNTS],
) {
    let mut limit = [0u8; ROOM];
    let s = shaped(p, size, &mut limit);
    let n = how_many(p, s, outside);
    if n == 0 {
        return;
    }
    some_tables(p, s, n, &limit, sheet, counts);
    damaged(p, s, &limit, way, sheet, counts);
}

// How many tables there are to choose from: all within bounds, and one or none out of bounds; none that are too long.
fn how_many(p: [u8; PLAN], s: Shape, outside: bool) -> usize {
    if ROOM <= s.length {
        return 0;
    }
    let size = s.size;
    if within(p, size) {
        return s.count;
    }
    if outside { 1 } else { 0 }
}

// At most four of the first n tables at these sizes, spread evenly over all.
fn some_tables(
    p: [u8; PLAN],
    s: Shape,
    n: usize,
    limit: &[u8; ROOM],
    sheet: &[u8],
    counts: &mut [u64; COUNTS],
) {
    let stride = n / 4 + 1;
    let mut tables = first_tables(s);
    for i in 0..n {
        if i % stride == 0 {
            one_table(p, s, &tables, sheet, counts);
        }
        turn(&mut tables, limit, count(p, SORTS), s.length);
    }
}

fn one_table(
    p: [u8; PLAN],
    s: Shape,
    tables: &[u8; ROOM],
    sheet: &[u8],
    counts: &mut [u64; COUNTS],
) {
    stretches::compare(p, s, tables, sheet, counts);
    walks::compare(p, s, tables, 1, sheet, counts);
    judged(tables, s.length, wanted(p, s, tables), sheet, counts);
}

// The answer, as a number: tables are out of bounds, break a first literal, or fit.
fn wanted(p: [u8; PLAN], s: Shape, tables: &[u8; ROOM]) -> usize {
    let size = s.size;
    if !within(p, size) {
        return 1;
    }
    let broken = first_broken(p, key_of(p, s, tables));
    if broken < count(p, LITERALS) {
        plus(2, broken)
    } else {
        0
    }
}

// Damaged tables are refused: by a size of 0 (way 0) or of 17 (1), a byte too many (2, and the one way where there is no sort), no byte at
// all (3), a last cell that is no code (4), or a byte too few (5, and 4 where there is no cell).
fn damaged(
    p: [u8; PLAN],
    s: Shape,
    limit: &[u8; ROOM],
    way: usize,
    sheet: &[u8],
    counts: &mut [u64; COUNTS],
) {
    let how = possible(way, count(p, SORTS), s.length);
    let k = damaged_place(how, count(p, SORTS), s.length) % ROOM;
    let mut tables = first_tables(s);
    tables[k] = damaged_byte(how, tables[k], limit[k]);
    refused(&tables, damaged_length(how, s.length), sheet, counts);
}

fn possible(way: usize, sorts: usize, length: usize) -> usize {
    if sorts == 0 {
        return 2;
    }
    if way == 4 && length <= sorts { 5 } else { way }
}

fn damaged_place(way: usize, sorts: usize, length: usize) -> usize {
    match way {
        1 => sorts / 2,
        4 => minus(length, 1),
        _ => 0,
    }
}

fn damaged_byte(way: usize, byte: u8, limit: u8) -> u8 {
    match way {
        0 => 0,
        1 => 17,
        4 => limit,
        _ => byte,
    }
}

fn damaged_length(way: usize, length: usize) -> usize {
    match way {
        2 => plus(length, 1),
        3 => 0,
        5 => minus(length, 1),
        _ => length,
    }
}

fn refused(tables: &[u8; ROOM], length: usize, sheet: &[u8], counts: &mut [u64; COUNTS]) {
    stretches::nothing(first(tables, length), 0, sheet, counts);
    walks::damaged(first(tables, length), sheet, counts);
    judged(tables, length, 1012, sheet, counts);
}

// Judge is asked about the first bytes of the tables, and is to give the answer, as a number, that is wanted.
fn judged(
    tables: &[u8; ROOM],
    length: usize,
    want: usize,
    sheet: &[u8],
    counts: &mut [u64; COUNTS],
) {
    let got = asked(sheet, first(tables, length));
    expect(got == want, outcome(want), b"judge", sheet, counts);
}

fn outcome(want: usize) -> usize {
    match want {
        0 => FITS,
        1 => OUT_OF_BOUNDS,
        1012 => DAMAGED,
        _ => BROKEN,
    }
}

// Judge's answer as a number: 0 fits, 1 out of bounds, 2 + k broken statement k, 1000 + number a refusal at place 0.
fn asked(sheet: &[u8], tables: &[u8]) -> usize {
    match judge::judge(sheet, tables) {
        Ok(Judgement::Fits) => 0,
        Ok(Judgement::OutOfBounds) => 1,
        Ok(Judgement::Broken(k)) => plus(2, k),
        Err(r) => refusal(r.cause.number(), r.place),
    }
}
