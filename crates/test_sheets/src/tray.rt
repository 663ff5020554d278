// Sheets that are kept for a bundle, each with the sum that the listing says. A tray is a row of bytes, as a plan is: eight slots for the sheets of the
// bundle, one for a sheet that may stand in for any of them, and one for the sheet of zero bytes; then how many sheets are kept, and how many more than one
// the bundle is to have.
ghost use Rattle.std.specs.Prelude.{◌≤◌};

use crate::numbers::{byte, plus, times, wide};

// The most sheets of a bundle.
pub const MOST_SHEETS: usize = 8;

pub const STAND_IN: usize = 8;

pub const EMPTY: usize = 9;

const SLOTS: usize = 10;

// A slot holds the length of its sheet in two bytes, the sum, and the sheet; no sheet that is kept has more than 375 bytes.
const SLOT: usize = 512;

const MANY: usize = 5120;

const MORE: usize = 5121;

pub const TRAY: usize = 5122;

// How many sheets are kept.
pub fn many(tray: &[u8; TRAY]) -> usize {
    wide(tray[MANY])
}

pub fn length(tray: &[u8; TRAY], slot: usize) -> usize {
    let at = first_byte(slot);
    plus(wide(tray[at]), times(256, wide(tray[at + 1])))
}

pub fn sum(tray: &[u8; TRAY], slot: usize) -> u8 {
    let at = first_byte(slot) + 2;
    tray[at]
}

// Byte k of the sheet in a slot.
pub fn byte_of(tray: &[u8; TRAY], slot: usize, k: usize) -> u8 {
    let at = plus(first_byte(slot) + 3, k) % TRAY;
    tray[at]
}

// Whether as many sheets are kept as the bundle is to have.
pub fn full(tray: &[u8; TRAY]) -> bool {
    tray[MORE] < tray[MANY]
}

pub fn keep(tray: &mut [u8; TRAY], sheet: &[u8], sum: u8) {
    let n = wide(tray[MANY]);
    put(tray, n, sheet, sum);
    tray[MANY] = byte(plus(n, 1));
}

// No sheet is kept for the next bundle, which is to have one more than the last, and one again after eight; this sheet may stand in.
pub fn begin(tray: &mut [u8; TRAY], sheet: &[u8], sum: u8) {
    put(tray, STAND_IN, sheet, sum);
    tray[MANY] = 0;
    tray[MORE] = byte(plus(wide(tray[MORE]), 1) % MOST_SHEETS);
}

fn put(tray: &mut [u8; TRAY], slot: usize, sheet: &[u8], sum: u8) {
    let at = first_byte(slot);
    tray[at] = byte(sheet.len());
    tray[at + 1] = byte(sheet.len() / 256);
    tray[at + 2] = sum;
    for k in 0..sheet.len() {
        let i = plus(at + 3, k) % TRAY;
        tray[i] = sheet[k];
    }
}

fn first_byte(slot: usize) -> usize
    ensures { result ≤ 4608 }
{
    slot % SLOTS * SLOT
}
