// Writes a sheet as bytes, record after record (docs/FORMAT.md, The sheet).
use crate::numbers::wide;
use crate::plan::{PARTS, PLAN, Record, count, record_at};

// More bytes than any sheet has that is drawn or fitted.
pub const SHEET: usize = 2304;

// The number of a part's first place in the plan: each part has 16 places, and those past its last record are empty.
pub fn first_place(part: usize) -> usize {
    part % 16 * 16
}

// Writes the sheet from the start of the bytes and gives its length.
pub fn encode(p: [u8; PLAN], bytes: &mut [u8; SHEET]) -> usize {
    put_places(p, 0, first_place(PARTS), bytes, 0)
}

// Writes the records at the plan's places first..last, one behind the other, and gives the place after them.
pub fn put_places(
    p: [u8; PLAN],
    first: usize,
    last: usize,
    bytes: &mut [u8; SHEET],
    from: usize,
) -> usize {
    let mut at = from;
    for k in first..last {
        if k % 16 < count(p, k / 16) {
            at = put(bytes, at, record_at(p, k / 16, k % 16));
        }
    }
    at
}

// Writes one record and gives the place after it. Payload bytes that the record does not have are written past that place, where the next
// record comes.
pub fn put(bytes: &mut [u8; SHEET], at: usize, r: Record) -> usize {
    let k = at % (SHEET - 6);
    bytes[k] = r.length;
    bytes[k + 1] = 0;
    bytes[k + 2] = r.kind;
    bytes[k + 3] = 0;
    bytes[k + 4] = r.x;
    bytes[k + 5] = r.y;
    bytes[k + 6] = r.z;
    k + 4 + wide(r.length)
}
