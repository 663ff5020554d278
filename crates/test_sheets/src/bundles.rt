// Bundles of the sheets of a tray, written as bytes (docs/FORMAT.md, The bundle).
use crate::numbers::{byte, minus, plus};
use crate::tray::{EMPTY, STAND_IN, TRAY, byte_of, length, many};

// More bytes than any bundle has, nine records too.
pub const BUNDLE: usize = 4096;

// The bytes of a record's head.
pub const HEAD: usize = 4;

const KIND: u8 = 9;

// A place that no record has.
const NOWHERE: usize = 255;

// A bundle: how many records it has, whether the kept sheets come in reverse order, the place of the sheet that stands in, and the place of a sheet that lacks
// its last bytes, and how many. Records behind the kept sheets hold no bytes.
#[derive(Clone, Copy, Drop)]
pub struct Made {
    pub records: usize,
    pub reversed: bool,
    pub stand_in: usize,
    pub short: usize,
    pub missing: usize,
}

// The sheets as they are kept, in so many records.
pub fn as_kept(records: usize) -> Made {
    Made {
        records,
        reversed: false,
        stand_in: NOWHERE,
        short: NOWHERE,
        missing: 0,
    }
}

// The slot of the sheet at a place.
pub fn slot_at(tray: &[u8; TRAY], m: Made, place: usize) -> usize {
    let n = many(tray);
    if place == m.stand_in {
        return STAND_IN;
    }
    if n <= place {
        return EMPTY;
    }
    if m.reversed {
        minus(n, plus(place, 1))
    } else {
        place
    }
}

// Where the record at a place starts; at the place behind the last one, how long the bundle is.
pub fn record_at(tray: &[u8; TRAY], m: Made, place: usize) -> usize {
    let mut at: usize = 0;
    for k in 0..place {
        at = plus(plus(at, HEAD), length_at(tray, m, k));
    }
    at
}

// Writes the bundle from the start of the bytes.
pub fn write(tray: &[u8; TRAY], m: Made, bytes: &mut [u8; BUNDLE]) {
    let n = m.records;
    for place in 0..n {
        let at = record_at(tray, m, place);
        put_head(length_at(tray, m, place), bytes, at);
        put_sheet(tray, m, place, bytes, plus(at, HEAD));
    }
}

// How many bytes the sheet at a place has in the bundle.
fn length_at(tray: &[u8; TRAY], m: Made, place: usize) -> usize {
    let n = length(tray, slot_at(tray, m, place));
    if place == m.short {
        minus(n, m.missing)
    } else {
        n
    }
}

fn put_head(length: usize, bytes: &mut [u8; BUNDLE], at: usize) {
    let k = at % (BUNDLE - HEAD);
    bytes[k] = byte(length);
    bytes[k + 1] = byte(length / 256);
    bytes[k + 2] = KIND;
    bytes[k + 3] = 0;
}

fn put_sheet(tray: &[u8; TRAY], m: Made, place: usize, bytes: &mut [u8; BUNDLE], from: usize) {
    let slot = slot_at(tray, m, place);
    let n = length_at(tray, m, place);
    for k in 0..n {
        let i = plus(from, k) % BUNDLE;
        bytes[i] = byte_of(tray, slot, k);
    }
}
