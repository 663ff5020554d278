// Lists of sizes, one size for each sort and 0 for a sort that is not there: from 1 up to given tops, the last size fastest.
ghost use Rattle.std.specs.Prelude.{◌<◌};

use test_sheets::numbers::{byte, plus, times, wide};
use test_sheets::plan::{MOST_SORTS, PLAN, Record, SORTS, TOTAL, record_at};

// How many lists there are.
pub fn lists(top: [u8; MOST_SORTS]) -> usize {
    times(times(choices(top[0]), choices(top[1])), choices(top[2]))
}

// List v of them.
pub fn sizes_at(top: [u8; MOST_SORTS], v: usize) -> [u8; MOST_SORTS] {
    let second = v / choices(top[2]);
    let first = second / choices(top[1]);
    [
        size_at(top[0], first),
        size_at(top[1], second),
        size_at(top[2], v),
    ]
}

// Whether the sizes lie from floor to ceiling and their sum is at most the total.
pub fn within(p: [u8; PLAN], size: [u8; MOST_SORTS]) -> bool {
    let total = record_at(p, TOTAL, 0);
    bounded(record_at(p, SORTS, 0), size[0])
        && bounded(record_at(p, SORTS, 1), size[1])
        && bounded(record_at(p, SORTS, 2), size[2])
        && sum(size) <= wide(total.x)
}

pub fn sum(size: [u8; MOST_SORTS]) -> usize {
    plus(plus(wide(size[0]), wide(size[1])), wide(size[2]))
}

fn bounded(s: Record, size: u8) -> bool {
    s.x <= size && size <= s.y
}

fn choices(top: u8) -> usize
    ensures { 0 < result }
{
    if top == 0 { 1 } else { wide(top) }
}

fn size_at(top: u8, v: usize) -> u8 {
    if top == 0 {
        0
    } else {
        byte(plus(v % wide(top), 1))
    }
}
