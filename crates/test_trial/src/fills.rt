// Read, find, sizes and find_at on a sheet whose first fill stands once more behind the last one, which is refusal 16, and on the sheet with that fill moved
// in front of its first statement, which is then refusal 3. Buffers and sizes are such that an accepted sheet would be refused with 10 or 17.
use prelude::refusal::Refusal;
use test_questions::slices::first;
use test_questions::tally::{BEHIND_FILL, COUNTS, SECOND_FILL, expect};
use test_sheets::encode::{SHEET, first_place, put, put_places};
use test_sheets::numbers::plus;
use test_sheets::plan::{FILLS, LITERALS, PARTS, PLAN, TOTAL, count, record_at};

// What is asked of a sheet with a fill, and with a statement.
pub(crate) fn compare(p: [u8; PLAN], counts: &mut [u64; COUNTS]) {
    if count(p, FILLS) == 0 {
        return;
    }
    second(p, counts);
    if 0 < count(p, LITERALS) {
        behind(p, counts);
    }
}

fn second(p: [u8; PLAN], counts: &mut [u64; COUNTS]) {
    let total = first_place(TOTAL);
    let mut bytes = [0u8; SHEET];
    let at = put_places(p, 0, total, &mut bytes, 0);
    let rest = put(&mut bytes, at, record_at(p, FILLS, 0));
    let n = put_places(p, total, first_place(PARTS), &mut bytes, rest);
    refused(&bytes, n, 16, at, SECOND_FILL, counts);
}

fn behind(p: [u8; PLAN], counts: &mut [u64; COUNTS]) {
    let literals = first_place(LITERALS);
    let fills = first_place(FILLS);
    let mut bytes = [0u8; SHEET];
    let moved = put_places(p, 0, literals, &mut bytes, 0);
    let at = put(&mut bytes, moved, record_at(p, FILLS, 0));
    let rest = put_places(p, literals, fills, &mut bytes, at);
    let n = put_places(p, plus(fills, 1), first_place(PARTS), &mut bytes, rest);
    refused(&bytes, n, 3, at, BEHIND_FILL, counts);
}

// The sheet is the first n bytes; it is to be refused with this number at this place.
// Kept: the paper's number, against which the product's causes are held.
fn refused(
    bytes: &[u8; SHEET],
    n: usize,
    number: u8,
    place: usize,
    outcome: usize,
    counts: &mut [u64; COUNTS],
) {
    let sheet = first(bytes, n);
    let right = is_refused(sheet::read(sheet), number, place)
        && is_refused(
            finder::find(sheet, &mut [0u8; 1], &mut [0u8; 1]),
            number,
            place,
        )
        && is_refused(sizes::sizes(sheet, &mut [0u8; 1]), number, place)
        && is_refused(
            find_at::find_at(sheet, &[0u8; 1], &mut [0u8; 1], &mut [0u8; 1]),
            number,
            place,
        );
    expect(right, outcome, b"a fill out of place", sheet, counts);
}

fn is_refused<T: Copy>(answer: Result<T, Refusal>, want: u8, at: usize) -> bool {
    match answer {
        Ok(_) => false,
        Err(r) => r.cause.number() == want && r.place == at,
    }
}
