// The buffers that find and find_at are lent, and what a call is to give and to leave in them.
use crate::buffers::written;
use prelude::refusal::Refusal;
use test_listing::answer::NOTHING;
use test_listing::keys::KEY;
use test_listing::shape::{ROOM, length};
use test_questions::tally::refusal;
use test_sheets::numbers::{minus, smaller, wide};
use test_sheets::plan::{MOST_SORTS, PLAN, SORTS, TERMS, count, record_at};

// The bytes of the longest buffers.
pub(crate) const CODES: usize = 32;

pub(crate) const TABLES: usize = 2048;

// What a call is to give, as a number, and how many bytes of each buffer it is to write.
#[derive(Clone, Copy)]
pub(crate) struct Want {
    pub answer: usize,
    codes: usize,
    tables: usize,
}

// How many bytes of each buffer are lent, and what stands in them.
#[derive(Clone, Copy)]
pub(crate) struct Lent {
    pub codes: usize,
    pub tables: usize,
    pub fill: u8,
}

// The answer that has the key, or this refusal where there is none.
pub(crate) fn wanted(p: [u8; PLAN], key: [u8; KEY], otherwise: u8) -> Want {
    if key[0] == NOTHING {
        return refused(otherwise);
    }
    Want {
        answer: wide(key[0]),
        codes: count(p, TERMS),
        tables: length(p, [key[1], key[2], key[3]]),
    }
}

pub(crate) fn refused(number: u8) -> Want {
    Want {
        answer: refusal(number, 0),
        codes: 0,
        tables: 0,
    }
}

pub(crate) fn roomy() -> Lent {
    Lent {
        codes: CODES,
        tables: TABLES,
        fill: 165,
    }
}

// A byte for each term, and the tables with every size at its ceiling.
pub(crate) fn exact(p: [u8; PLAN]) -> Lent {
    Lent {
        codes: count(p, TERMS),
        tables: length(p, ceilings(p)),
        fill: 90,
    }
}

fn ceilings(p: [u8; PLAN]) -> [u8; MOST_SORTS] {
    let a = record_at(p, SORTS, 0);
    let b = record_at(p, SORTS, 1);
    let c = record_at(p, SORTS, 2);
    [a.y, b.y, c.y]
}

// One byte fewer for the codes.
pub(crate) fn fewer_codes(exact: Lent) -> Lent {
    Lent {
        codes: minus(exact.codes, 1),
        tables: exact.tables,
        fill: 165,
    }
}

// One byte fewer for the tables.
pub(crate) fn fewer_tables(exact: Lent) -> Lent {
    Lent {
        codes: exact.codes,
        tables: minus(exact.tables, 1),
        fill: 90,
    }
}

// What a call gave, as a number: the sum, which is below 999, or 1000 + number a refusal at place 0.
pub(crate) fn number_of(answer: Result<usize, Refusal>) -> usize {
    match answer {
        Ok(sum) => smaller(sum, 999),
        Err(r) => refusal(r.cause.number(), r.place),
    }
}

// Whether the buffers hold what is wanted, and every other byte is as it was filled.
pub(crate) fn left(
    codes: &[u8],
    tables: &[u8],
    key: [u8; KEY],
    best: &[u8; ROOM],
    w: Want,
    fill: u8,
) -> bool {
    written(codes, &key[4..], w.codes, &[fill; CODES])
        && written(tables, best, w.tables, &[fill; TABLES])
}
