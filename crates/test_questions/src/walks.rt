// Walk on given tables, against the cells that stand in them, read one event at a time: fields, codes and events at random, some of them not there, in
// trails that are roomy, exact and too short; and on damaged tables.
use crate::slices::first;
use crate::tally::{
    COUNTS, NO_WALK, SHORT_TRAIL, WALK_DAMAGED, WALKED, WALKED_CODES, WALKS, add, expect, refusal,
};
use test_listing::shape::{ROOM, Shape, stretch_of};
use test_sheets::dice::pick;
use test_sheets::numbers::{byte, minus, plus, smaller, times, wide};
use test_sheets::plan::{MOST_SORTS, PLAN, SORTS, SYMBOLS, count, record_at};

// The most events of a walk, and the bytes of its trail: up to four in front, a code for each event, and up to two behind.
const EVENTS: usize = 12;

const TRAIL: usize = 18;

// What walk is asked: the sort, the starting code, how many events there are, where they start in the trail, how many bytes of it are lent, and what stands
// in these.
#[derive(Clone, Copy)]
struct Call {
    sort: usize,
    code: usize,
    many: usize,
    start: usize,
    lent: usize,
    fill: u8,
}

// So many walks through the tables of a shape, drawn from the number of walks before them.
pub fn compare(
    p: [u8; PLAN],
    s: Shape,
    tables: &[u8; ROOM],
    walks: usize,
    sheet: &[u8],
    counts: &mut [u64; COUNTS],
) {
    let mut state = counts[WALKS];
    for k in 0..walks {
        one_walk(p, s, tables, &mut state, sheet, counts);
    }
}

// Damaged tables are refused, whatever is asked; a trail that is too short comes before them.
pub fn damaged(tables: &[u8], sheet: &[u8], counts: &mut [u64; COUNTS]) {
    refused(tables, 0, 1012, WALK_DAMAGED, sheet, counts);
    refused(tables, 1, 1010, SHORT_TRAIL, sheet, counts);
}

// No event, and a trail of no byte that starts at a place.
fn refused(
    tables: &[u8],
    start: usize,
    want: usize,
    outcome: usize,
    sheet: &[u8],
    counts: &mut [u64; COUNTS],
) {
    let c = Call {
        sort: 0,
        code: 0,
        many: 0,
        start,
        lent: 0,
        fill: 0,
    };
    let got = asked(sheet, tables, c, &[0u8; EVENTS], &mut [0u8; TRAIL]);
    add(counts, WALKS, 1);
    expect(got == want, outcome, b"walk", sheet, counts);
}

fn one_walk(
    p: [u8; PLAN],
    s: Shape,
    tables: &[u8; ROOM],
    state: &mut u64,
    sheet: &[u8],
    counts: &mut [u64; COUNTS],
) {
    let mut events = [0u8; EVENTS];
    let c = drawn(p, s, state);
    draw_events(p, c.sort, state, &mut events);
    let want = wanted(p, s, c, &events);
    let right = agrees(s, tables, c, &events, want, sheet);
    add(counts, WALKS, 1);
    add(counts, WALKED_CODES, written(want));
    expect(right, outcome(want), b"walk", sheet, counts);
}

// A code of a sort, or one time in eight the first that is too large; a trail that is exact, or one or two bytes longer, or one time in eight a byte too short.
fn drawn(p: [u8; PLAN], s: Shape, state: &mut u64) -> Call {
    let sort = some_sort(p, state);
    let size = size_of(p, s, sort);
    let code = unless_wrong(pick(state, 8), pick(state, size), size);
    let many = pick(state, EVENTS + 1);
    let start = pick(state, 5);
    let end = plus(start, many);
    let longer = plus(end, pick(state, 3));
    Call {
        sort,
        code,
        many,
        start,
        lent: unless_wrong(pick(state, 8), longer, minus(end, 1)),
        fill: byte(plus(90, times(pick(state, 2), 75))),
    }
}

// What is right, or, where the die shows 0, what is wrong.
fn unless_wrong(die: usize, right: usize, wrong: usize) -> usize {
    if die == 0 { wrong } else { right }
}

// A sort that some symbol stays in, where there is one; one time in eight any sort, or one that is not there.
fn some_sort(p: [u8; PLAN], state: &mut u64) -> usize {
    let any = pick(state, plus(count(p, SORTS), 1));
    if pick(state, 8) == 0 {
        return any;
    }
    let n = count(p, SYMBOLS);
    kept_sort(p, n, pick(state, n), any)
}

// The sort of the first of n symbols that stays in its own, in a round that begins with one of them, or another sort where none does.
fn kept_sort(p: [u8; PLAN], n: usize, begin: usize, other: usize) -> usize {
    for k in 0..n {
        let f = plus(begin, k) % n;
        let y = record_at(p, SYMBOLS, f);
        if stays(p, wide(y.x), f) {
            return wide(y.x);
        }
    }
    other
}

fn draw_events(p: [u8; PLAN], sort: usize, state: &mut u64, events: &mut [u8; EVENTS]) {
    for k in 0..EVENTS {
        events[k] = byte(event(p, sort, state));
    }
}

// A symbol that stays in the sort, where there is one; one time in thirty-two any symbol, or one that is not there.
fn event(p: [u8; PLAN], sort: usize, state: &mut u64) -> usize {
    let n = count(p, SYMBOLS);
    let any = pick(state, plus(n, 1));
    if pick(state, 32) == 0 {
        return any;
    }
    staying(p, sort, n, any)
}

// The first of n symbols that stays in the sort, in a round that begins with one of them, or that one where none does.
fn staying(p: [u8; PLAN], sort: usize, n: usize, begin: usize) -> usize {
    for k in 0..n {
        let f = plus(begin, k) % n;
        if stays(p, sort, f) {
            return f;
        }
    }
    begin
}

// Whether the symbol is there, takes just the sort and gives it.
fn stays(p: [u8; PLAN], sort: usize, symbol: usize) -> bool {
    let y = record_at(p, SYMBOLS, symbol);
    symbol < count(p, SYMBOLS) && y.length == 2 && wide(y.x) == sort && wide(y.y) == sort
}

// How many codes a sort has; none where it is not there.
fn size_of(p: [u8; PLAN], s: Shape, sort: usize) -> usize {
    if count(p, SORTS) <= sort {
        return 0;
    }
    let size = s.size;
    wide(size[sort % MOST_SORTS])
}

// The answer as a number: how many codes are to be written, or 1000 + number a refusal.
fn wanted(p: [u8; PLAN], s: Shape, c: Call, events: &[u8; EVENTS]) -> usize {
    if c.lent < plus(c.start, c.many) {
        return 1010;
    }
    if size_of(p, s, c.sort) <= c.code || !all_stay(p, c, events) {
        return 1015;
    }
    c.many
}

fn all_stay(p: [u8; PLAN], c: Call, events: &[u8; EVENTS]) -> bool {
    let n = smaller(c.many, EVENTS);
    for k in 0..n {
        if !stays(p, c.sort, wide(events[k])) {
            return false;
        }
    }
    true
}

// How many codes an answer says.
fn written(want: usize) -> usize {
    if want < 1000 { want } else { 0 }
}

fn outcome(want: usize) -> usize {
    match want {
        1010 => SHORT_TRAIL,
        1015 => NO_WALK,
        _ => WALKED,
    }
}

// Whether walk gives what is wanted and leaves every other byte as it was filled.
fn agrees(
    s: Shape,
    tables: &[u8; ROOM],
    c: Call,
    events: &[u8; EVENTS],
    want: usize,
    sheet: &[u8],
) -> bool {
    let mut right = [c.fill; TRAIL];
    put_codes(s, tables, c, events, written(want), &mut right);
    let mut trail = [c.fill; TRAIL];
    asked(sheet, first(tables, s.length), c, events, &mut trail) == want && alike(&trail, &right)
}

fn alike(trail: &[u8; TRAIL], right: &[u8; TRAIL]) -> bool {
    check::same(trail, right)
}

// Puts the first n codes of the walk into a trail, each the cell of its event's table at the code before it.
fn put_codes(
    s: Shape,
    tables: &[u8; ROOM],
    c: Call,
    events: &[u8; EVENTS],
    n: usize,
    trail: &mut [u8; TRAIL],
) {
    let most = smaller(n, EVENTS);
    let mut code = c.code;
    for k in 0..most {
        let its = stretch_of(s, wide(events[k]));
        let cell = plus(its.from, code) % ROOM;
        code = wide(tables[cell]);
        let i = plus(c.start, k) % TRAIL;
        trail[i] = byte(code);
    }
}

// Walk's answer as a number: how many codes it says, which is below 999, or 1000 + number a refusal at place 0.
fn asked(sheet: &[u8], tables: &[u8], c: Call, events: &[u8], trail: &mut [u8]) -> usize {
    let e = smaller(c.many, events.len());
    let t = smaller(c.lent, trail.len());
    match walk::walk(
        sheet,
        tables,
        c.sort,
        c.code,
        &events[0..e],
        &mut trail[0..t],
        c.start,
    ) {
        Ok(length) => smaller(length, 999),
        Err(r) => refusal(r.cause.number(), r.place),
    }
}
