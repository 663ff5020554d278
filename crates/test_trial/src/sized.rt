// Sizes against the first candidate of the listing: the sum and the sizes, in buffers that are roomy, exact and too short.
use crate::buffers::written;
use crate::lent::number_of;
use test_listing::answer::NOTHING;
use test_listing::keys::KEY;
use test_questions::tally::{COUNTS, NOT_SIZED, SHORT_SIZED, SIZED, expect, refusal};
use test_sheets::numbers::{smaller, wide};
use test_sheets::plan::{PLAN, SORTS, count};

// The bytes of the longest buffer that sizes is lent.
const SIZES: usize = 8;

// What sizes is to give, as a number, and how many bytes it is to write.
#[derive(Clone, Copy)]
struct Want {
    answer: usize,
    length: usize,
}

pub(crate) fn compare(p: [u8; PLAN], key: [u8; KEY], sheet: &[u8], counts: &mut [u64; COUNTS]) {
    let n = count(p, SORTS);
    let w = wanted(key, n);
    let right = agrees(sheet, key, w, SIZES, 165) && agrees(sheet, key, w, n, 90);
    expect(right, outcome(w.answer), b"sizes", sheet, counts);
    if 0 < n {
        let short = agrees(sheet, key, refused(10), n - 1, 165);
        expect(short, SHORT_SIZED, b"sizes", sheet, counts);
    }
}

fn wanted(key: [u8; KEY], sorts: usize) -> Want {
    if key[0] == NOTHING {
        return refused(11);
    }
    Want {
        answer: wide(key[0]),
        length: sorts,
    }
}

fn refused(number: u8) -> Want {
    Want {
        answer: refusal(number, 0),
        length: 0,
    }
}

fn outcome(want: usize) -> usize {
    if want == 1011 { NOT_SIZED } else { SIZED }
}

// Whether sizes gives what is wanted and leaves every other byte as it was filled.
fn agrees(sheet: &[u8], key: [u8; KEY], w: Want, lent: usize, fill: u8) -> bool {
    let mut out = [fill; SIZES];
    asked(sheet, &mut out, lent) == w.answer && written(&out, &key[1..], w.length, &[fill; SIZES])
}

// The answer of sizes as a number: the sum, which is below 999, or 1000 + number a refusal at place 0.
pub(crate) fn asked(sheet: &[u8], out: &mut [u8], lent: usize) -> usize {
    let n = smaller(lent, out.len());
    number_of(sizes::sizes(sheet, &mut out[0..n]))
}
