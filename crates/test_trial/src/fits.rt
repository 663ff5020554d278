// Fitted against the sheet that the test writes from the listing's answer, byte for byte, in buffers that are roomy, exact and too short; and find on
// what fitted wrote, which is to give the old names the very same tables.
use crate::buffers::written;
use prelude::refusal::Refusal;
use test_listing::answer::NOTHING;
use test_listing::fitted::{too_many, write};
use test_listing::keys::KEY;
use test_listing::shape::{ROOM, length};
use test_questions::slices::first;
use test_questions::tally::{
    COUNTS, FITTED, FOUND_AGAIN, NOT_FITTED, TOO_MANY, TOO_SHORT, expect, refusal,
};
use test_sheets::encode::SHEET;
use test_sheets::numbers::{plus, smaller, wide};
use test_sheets::plan::PLAN;

// The bytes of the buffer that fitted asks for.
const ENOUGH: usize = 2161;

// The bytes of buffers that suffice for find on every fitted sheet.
const CODES: usize = 128;

const TABLES: usize = 1024;

// Refusals as numbers lie this much higher than the tally has them, above every length.
const REFUSED: usize = 10000;

// What fitted is to give, as a number, and how many bytes it is to write.
#[derive(Clone, Copy)]
struct Want {
    answer: usize,
    length: usize,
}

// How many bytes fitted is lent, and what stands in them.
#[derive(Clone, Copy)]
struct Lent {
    length: usize,
    fill: u8,
}

pub(crate) fn compare(
    p: [u8; PLAN],
    key: [u8; KEY],
    best: &[u8; ROOM],
    sheet: &[u8],
    counts: &mut [u64; COUNTS],
) {
    let mut bytes = [0u8; SHEET];
    let w = wanted(p, key, best, &mut bytes);
    answered(sheet, &bytes, w, counts);
    too_short(sheet, &bytes, counts);
    if w.answer < REFUSED {
        again(
            sheet,
            key,
            best,
            length(p, [key[1], key[2], key[3]]),
            counts,
        );
    }
}

// What is wanted, and the sheet that is to be written.
fn wanted(p: [u8; PLAN], key: [u8; KEY], best: &[u8; ROOM], bytes: &mut [u8; SHEET]) -> Want {
    if key[0] == NOTHING {
        return refused(11);
    }
    if too_many(p, key) {
        return refused(14);
    }
    let length = write(p, key, best, bytes);
    Want {
        answer: length,
        length,
    }
}

fn refused(number: u8) -> Want {
    Want {
        answer: plus(REFUSED, refusal(number, 0)),
        length: 0,
    }
}

// The answer in a buffer that is roomy, and in one that is exact.
fn answered(sheet: &[u8], want: &[u8; SHEET], w: Want, counts: &mut [u64; COUNTS]) {
    let roomy = Lent {
        length: SHEET,
        fill: 165,
    };
    let exact = Lent {
        length: ENOUGH,
        fill: 90,
    };
    let right = agrees(sheet, want, w, roomy) && agrees(sheet, want, w, exact);
    expect(right, outcome(w.answer), b"fitted", sheet, counts);
}

fn outcome(want: usize) -> usize {
    match want {
        11011 => NOT_FITTED,
        11014 => TOO_MANY,
        _ => FITTED,
    }
}

// A buffer one byte short is refusal 10, whether there is an answer or not.
fn too_short(sheet: &[u8], want: &[u8; SHEET], counts: &mut [u64; COUNTS]) {
    let short = Lent {
        length: ENOUGH - 1,
        fill: 165,
    };
    let right = agrees(sheet, want, refused(10), short);
    expect(right, TOO_SHORT, b"fitted", sheet, counts);
}

// Whether fitted gives what is wanted and leaves every other byte as it was filled.
fn agrees(sheet: &[u8], want: &[u8; SHEET], w: Want, lent: Lent) -> bool {
    let mut out = [lent.fill; SHEET];
    asked(sheet, &mut out, lent.length) == w.answer
        && written(&out, want, w.length, &[lent.fill; SHEET])
}

// Fitted's answer as a number: the length, or a refusal.
fn asked(sheet: &[u8], out: &mut [u8], lent: usize) -> usize {
    let n = smaller(lent, out.len());
    number_of(fitted::fitted(sheet, &mut out[0..n]))
}

// An answer's length or sum as a number, or its refusal.
fn number_of(answer: Result<usize, Refusal>) -> usize {
    match answer {
        Ok(n) => smaller(n, REFUSED - 1),
        Err(r) => plus(REFUSED, refusal(r.cause.number(), r.place)),
    }
}

// What fitted writes is accepted, and find gives it the same sum and the old names the same tables; sizes and tables have n bytes.
fn again(sheet: &[u8], key: [u8; KEY], best: &[u8; ROOM], n: usize, counts: &mut [u64; COUNTS]) {
    let mut out = [0u8; SHEET];
    let length = asked(sheet, &mut out, ENOUGH);
    let new = first(&out, length);
    let right = sheet::read(new).is_ok() && found_again(new, key, best, n);
    expect(
        right,
        FOUND_AGAIN,
        b"find on what fitted writes",
        sheet,
        counts,
    );
}

fn found_again(new: &[u8], key: [u8; KEY], best: &[u8; ROOM], n: usize) -> bool {
    let mut tables = [255u8; TABLES];
    found(new, &mut tables) == wide(key[0]) && check::same(first(&tables, n), first(best, n))
}

// The sum that find gives, or a refusal as a number.
fn found(sheet: &[u8], tables: &mut [u8]) -> usize {
    let mut codes = [255u8; CODES];
    number_of(finder::find(sheet, &mut codes, tables))
}
