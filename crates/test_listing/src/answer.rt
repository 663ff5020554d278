// The answer of a drawn sheet by its listing, and the one at given sizes: of all candidates, or of those of exactly these sizes, that meet every literal
// the one with the first key, and of those with that key the first tables, in which a cell that no term reaches holds 0.
use crate::keys::{KEY, first_broken, key_of};
use crate::ranges::{lists, sizes_at, within};
use crate::shape::{ROOM, Shape, capped, first_tables, shaped, turn};
use test_sheets::numbers::{byte, larger, plus, smaller, wide};
use test_sheets::plan::{LITERALS, MOST_SORTS, PLAN, SORTS, count, record_at};

// Where there is no answer, the key is one that comes after every key.
// Kept: a number, as a key is compared with others place by place.
pub const NOTHING: u8 = 255;

// Sizes are listed from 1 to one past floor and ceiling, so that some lie out of bounds.
pub fn tops(p: [u8; PLAN]) -> [u8; MOST_SORTS] {
    [top(p, 0), top(p, 1), top(p, 2)]
}

// How many interpretations the candidates of a sheet are, up to the budget.
pub fn candidates(p: [u8; PLAN]) -> usize {
    counted(p, tops(p), true)
}

// How many interpretations have sizes up to the tops, or only those within bounds, up to the budget.
pub fn counted(p: [u8; PLAN], top: [u8; MOST_SORTS], bounded: bool) -> usize {
    let n = lists(top);
    let mut count: usize = 0;
    for v in 0..n {
        count = capped(plus(count, count_at(p, sizes_at(top, v), bounded)));
    }
    count
}

// Lists every candidate; gives the answer's key, and its tables in best.
pub fn list(p: [u8; PLAN], best: &mut [u8; ROOM]) -> [u8; KEY] {
    let top = tops(p);
    let n = lists(top);
    let mut key = [NOTHING; KEY];
    for v in 0..n {
        let mut tables = [0u8; ROOM];
        let mine = list_at(p, sizes_at(top, v), &mut tables);
        let found = earlier(mine, &tables, key, best);
        key = found;
    }
    key
}

// Lists every candidate of exactly these sizes; gives the key of the first that meets every literal, and its tables in best.
pub fn list_at(p: [u8; PLAN], size: [u8; MOST_SORTS], best: &mut [u8; ROOM]) -> [u8; KEY] {
    if !within(p, size) {
        return [NOTHING; KEY];
    }
    let mut limit = [0u8; ROOM];
    let s = shaped(p, size, &mut limit);
    list_shape(p, s, &limit, best)
}

fn top(p: [u8; PLAN], sort: usize) -> u8 {
    if count(p, SORTS) <= sort {
        return 0;
    }
    let s = record_at(p, SORTS, sort);
    byte(smaller(plus(larger(wide(s.x), wide(s.y)), 1), 16))
}

fn count_at(p: [u8; PLAN], size: [u8; MOST_SORTS], bounded: bool) -> usize {
    if bounded && !within(p, size) {
        return 0;
    }
    let mut limit = [0u8; ROOM];
    let s = shaped(p, size, &mut limit);
    s.count
}

fn list_shape(p: [u8; PLAN], s: Shape, limit: &[u8; ROOM], best: &mut [u8; ROOM]) -> [u8; KEY] {
    let n = s.count;
    let mut tables = first_tables(s);
    let mut key = [NOTHING; KEY];
    for _ in 0..n {
        let found = kept(p, s, &tables, key, best);
        key = found;
        turn(&mut tables, limit, count(p, SORTS), s.length);
    }
    key
}

// The key after these tables: the earlier one, where they meet every literal.
fn kept(
    p: [u8; PLAN],
    s: Shape,
    tables: &[u8; ROOM],
    key: [u8; KEY],
    best: &mut [u8; ROOM],
) -> [u8; KEY] {
    let mine = key_of(p, s, tables);
    if first_broken(p, mine) < count(p, LITERALS) {
        return key;
    }
    earlier(mine, tables, key, best)
}

// The key of these tables, which then stand in best, where it comes before the other key, and else that one.
fn earlier(
    mine: [u8; KEY],
    tables: &[u8; ROOM],
    key: [u8; KEY],
    best: &mut [u8; ROOM],
) -> [u8; KEY] {
    if before(mine, key) {
        *best = *tables;
        return mine;
    }
    key
}

// Whether the one key comes before the other.
fn before(a: [u8; KEY], b: [u8; KEY]) -> bool {
    for k in 0..KEY {
        let x = a[k];
        let y = b[k];
        if x != y {
            return x < y;
        }
    }
    false
}
