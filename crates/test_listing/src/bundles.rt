// What a bundle is to give (docs/FORMAT.md, The bundle), from what the listing says of each of its sheets.
use crate::answer::NOTHING;
use test_sheets::bundles::{HEAD, Made, record_at, slot_at};
use test_sheets::numbers::{minus, plus, wide};
use test_sheets::tray::{MOST_SHEETS, TRAY, length, sum};

// The bytes of a sheet's total, its last record.
pub const TOTAL_BYTES: usize = 5;

// Kept: a number of its own, against which the product's causes are held (docs/FORMAT.md, Refusals).
// The eight sums; number 0 and what is left of the limit, or the number and the place of a refusal; and the sums of the sheets before one that is refused.
#[derive(Clone, Copy, Drop)]
pub struct Want {
    pub sums: [u8; MOST_SHEETS],
    pub number: u8,
    pub at: usize,
    pub before: usize,
}

// The bundle itself, then the first sheet that is refused, then the limit.
pub fn wanted(tray: &[u8; TRAY], m: Made, limit: usize) -> Want {
    if m.records == 0 || MOST_SHEETS < m.records {
        return refused(18, 0, 0);
    }
    let k = first_refused(tray, m);
    if k < m.records {
        return refused_sheet(tray, m, k);
    }
    let all = spent(tray, m, m.records);
    if limit < all {
        return refused(19, 0, 0);
    }
    Want {
        sums: sums(tray, m),
        number: 0,
        at: minus(limit, all),
        before: 0,
    }
}

pub fn refused(number: u8, at: usize, before: usize) -> Want {
    Want {
        sums: [0u8; MOST_SHEETS],
        number,
        at,
        before,
    }
}

// The sums of the sheets at so many places; those without an answer add nothing.
pub fn spent(tray: &[u8; TRAY], m: Made, places: usize) -> usize {
    let mut all: usize = 0;
    for k in 0..places {
        all = plus(all, share(sum(tray, slot_at(tray, m, k))));
    }
    all
}

fn share(sum: u8) -> usize {
    if sum == NOTHING { 0 } else { wide(sum) }
}

// The place of the first sheet that lacks bytes or has no answer, or how many records there are.
fn first_refused(tray: &[u8; TRAY], m: Made) -> usize {
    let n = m.records;
    for k in 0..n {
        if k == m.short || sum(tray, slot_at(tray, m, k)) == NOTHING {
            return k;
        }
    }
    n
}

// What the sheet at a place is refused with: 2 or 9 at its total, which is cut or not there, or 11 at its start.
fn refused_sheet(tray: &[u8; TRAY], m: Made, place: usize) -> Want {
    let start = plus(record_at(tray, m, place), HEAD);
    let before = spent(tray, m, place);
    if place == m.short {
        let total = minus(length(tray, slot_at(tray, m, place)), TOTAL_BYTES);
        return refused(without(m.missing), plus(start, total), before);
    }
    refused(11, start, before)
}

// The refusal of a sheet that lacks so many bytes: its total is not there, or is cut.
fn without(missing: usize) -> u8 {
    if missing == TOTAL_BYTES { 9 } else { 2 }
}

fn sums(tray: &[u8; TRAY], m: Made) -> [u8; MOST_SHEETS] {
    let mut all = [0u8; MOST_SHEETS];
    for k in 0..MOST_SHEETS {
        all[k] = sum(tray, slot_at(tray, m, k));
    }
    all
}
