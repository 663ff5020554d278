// What the terms and literals of a drawn sheet say under one interpretation.
use crate::ranges::sum;
use crate::shape::{ROOM, Shape, stretch_of};
use test_sheets::numbers::{byte, plus, times, wide};
use test_sheets::plan::{LITERALS, MOST_TERMS, PLAN, SAME, TERMS, count, record_at};

// The bytes of a key: the sum of the sizes, the sizes, and the code of each term. The order of keys, byte by byte, is the order of answers
// (docs/FORMAT.md, Which answer).
pub const KEY: usize = 20;

// The key of an interpretation.
pub fn key_of(p: [u8; PLAN], s: Shape, tables: &[u8; ROOM]) -> [u8; KEY] {
    let n = count(p, TERMS);
    let mut key = sizes_first(s);
    for t in 0..n {
        let more = with_code(key, t, cell(p, s, tables, key, t));
        key = more;
    }
    key
}

pub fn code_of(key: [u8; KEY], term: usize) -> u8 {
    let k = 4 + term % MOST_TERMS;
    key[k]
}

// Where in the tables the cell stands that the term reaches: its symbol's, at the codes of its arguments.
pub fn place_of(p: [u8; PLAN], s: Shape, key: [u8; KEY], term: usize) -> usize {
    let t = record_at(p, TERMS, term);
    let row = argument(key, 1 < t.length, t.y);
    let column = argument(key, 2 < t.length, t.z);
    let its = stretch_of(s, wide(t.x));
    plus(its.from, plus(times(its.columns, row), column))
}

// The number of the first literal that the codes break, or how many literals there are.
pub fn first_broken(p: [u8; PLAN], key: [u8; KEY]) -> usize {
    let n = count(p, LITERALS);
    for k in 0..n {
        if !holds(p, key, k) {
            return k;
        }
    }
    n
}

// Whether the codes meet every same literal, whatever the others say.
pub fn sames_hold(p: [u8; PLAN], key: [u8; KEY]) -> bool {
    let n = count(p, LITERALS);
    for k in 0..n {
        let l = record_at(p, LITERALS, k);
        if l.kind == SAME && !holds(p, key, k) {
            return false;
        }
    }
    true
}

fn sizes_first(s: Shape) -> [u8; KEY] {
    let size = s.size;
    let mut key = [0u8; KEY];
    key[0] = byte(sum(size));
    key[1] = size[0];
    key[2] = size[1];
    key[3] = size[2];
    key
}

fn with_code(key: [u8; KEY], term: usize, code: u8) -> [u8; KEY] {
    let k = 4 + term % MOST_TERMS;
    let mut more = key;
    more[k] = code;
    more
}

fn cell(p: [u8; PLAN], s: Shape, tables: &[u8; ROOM], key: [u8; KEY], term: usize) -> u8 {
    let k = place_of(p, s, key, term) % ROOM;
    tables[k]
}

fn argument(key: [u8; KEY], taken: bool, term: u8) -> usize {
    if taken {
        wide(code_of(key, wide(term)))
    } else {
        0
    }
}

fn holds(p: [u8; PLAN], key: [u8; KEY], literal: usize) -> bool {
    let l = record_at(p, LITERALS, literal);
    let same = code_of(key, wide(l.x)) == code_of(key, wide(l.y));
    same == (l.kind == SAME)
}
