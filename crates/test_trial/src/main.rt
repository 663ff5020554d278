// The sheet of zero bytes, sheets at the limits of fitted sheets, and random small sheets from a fixed seed. Find, sizes, find_at, judge, table of a name, walk,
// forced, group and fitted are asked about each, and what they give is compared with a listing of all interpretations (crate test_listing); bundle is asked
// about bundles of them. Read, find, sizes and find_at are asked about each sheet with a fill once more, with that fill out of place. The numbers printed are
// fixed by the seed; a difference is printed with its sheet.
#![tactic(auto)]

mod answers; // find, sizes, find_at and fitted, over the listing, and walk on its answer
mod buffers; // what a buffer holds
mod bundle_faults; // bundle is asked about bundles at fault
mod bundles; // bundle is asked
mod fills; // read, find, sizes and find_at are asked about a fill out of place
mod finds; // find is asked
mod fits; // fitted is asked
mod found_at; // find_at is asked
mod lent; // what find and find_at are lent
mod sized; // sizes is asked
mod turns; // sizes and find_at are asked in turn

use test_listing::{answer, apart, shape};
use test_questions::{judges, slices, tally, ties};
use test_sheets::plan::PLAN;
use test_sheets::tray::TRAY;
use test_sheets::{draw, encode, full, spare};

// How many sheets are drawn, the last of them with many unforced cells.
const DRAWN: usize = 4200;

const SPARE: usize = 200;

fn main() {
    let mut state: u64 = 1;
    let mut any = [0u8; TRAY];
    let mut answered = [0u8; TRAY];
    let mut counts = [0u64; tally::COUNTS];
    one_sheet([0u8; PLAN], &mut any, &mut answered, &mut counts);
    at_limits(&mut any, &mut answered, &mut counts);
    bundles::of_large(&mut counts);
    for k in 0..DRAWN {
        one_sheet(drawn(k, &mut state), &mut any, &mut answered, &mut counts);
    }
    tally::report(&counts);
}

// Sheets whose fitted sheet is full, and those with one cell more.
fn at_limits(any: &mut [u8; TRAY], answered: &mut [u8; TRAY], counts: &mut [u64; tally::COUNTS]) {
    one_sheet(full::of_expressions(0), any, answered, counts);
    one_sheet(full::of_expressions(1), any, answered, counts);
    one_sheet(full::of_statements(0), any, answered, counts);
    one_sheet(full::of_statements(1), any, answered, counts);
}

// Sheet k of those that are drawn.
fn drawn(k: usize, state: &mut u64) -> [u8; PLAN] {
    if k < DRAWN - SPARE {
        return draw::draw(state);
    }
    spare::spare(state)
}

// The sheet is kept for a bundle of any sheets, and for one of sheets that all have an answer.
fn one_sheet(
    p: [u8; PLAN],
    any: &mut [u8; TRAY],
    answered: &mut [u8; TRAY],
    counts: &mut [u64; tally::COUNTS],
) {
    let mut bytes = [0u8; encode::SHEET];
    let n = encode::encode(p, &mut bytes);
    tally::tried(p, counts);
    compare(p, &bytes, n, any, answered, counts);
    fills::compare(p, counts);
}

// Asks the questions, each where its listing is within the budget.
fn compare(
    p: [u8; PLAN],
    bytes: &[u8; encode::SHEET],
    n: usize,
    any: &mut [u8; TRAY],
    answered: &mut [u8; TRAY],
    counts: &mut [u64; tally::COUNTS],
) {
    let sheet = slices::first(bytes, n);
    let candidates = answer::candidates(p);
    if candidates <= shape::BUDGET {
        tally::add(counts, tally::CANDIDATES, candidates);
        let sum = answers::compare(p, sheet, counts);
        bundles::collect(sheet, sum, any, answered, counts);
        judges::compare(p, sheet, counts);
    }
    let structures = apart::structures(p);
    if structures <= shape::BUDGET {
        tally::add(counts, tally::STRUCTURES, structures);
        ties::compare(p, sheet, counts);
    }
}
