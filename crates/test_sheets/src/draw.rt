// Draws a sheet: up to three sorts, six symbols of any arity, twelve terms and eight literals, fills of some symbols, and a total that may bind.
use crate::dice::pick;
use crate::numbers::{minus, plus, wide};
use crate::plan::{
    FILLS, LITERALS, PLAN, SAME, SORTS, SYMBOLS, TERMS, TOTAL, count, fill_of, record_at, sort_of,
    with,
};

// Where no term has the sort that is asked for.
const NONE: usize = 255;

const ENOUGH_TERMS: usize = 12;

pub fn draw(state: &mut u64) -> [u8; PLAN] {
    if pick(state, 8) == 0 {
        return choice(state);
    }
    let sorts = how_many_sorts(pick(state, 6));
    let a = records([0u8; PLAN], SORTS, sorts, state);
    let symbols = how_many_symbols(state);
    let b = records(a, SYMBOLS, symbols, state);
    let terms = pick(state, 32);
    rest(records(b, TERMS, terms, state), state)
}

// A sheet of which two terms differ as soon as one of two sorts has a second code, so that several lists of sizes may have the least sum.
fn choice(state: &mut u64) -> [u8; PLAN] {
    let result = pick(state, 3);
    let a = choice_sort([0u8; PLAN], result, state);
    let b = choice_sort(a, result, state);
    let c = choice_sort(b, result, state);
    let d = choice_symbols(c, result, (result % 3 + 1) % 3, (result % 3 + 2) % 3);
    rest(choice_terms(d), state)
}

// The result's sort has two codes, the others may have one.
fn choice_sort(p: [u8; PLAN], res: usize, state: &mut u64) -> [u8; PLAN] {
    let more = pick(state, 2);
    if count(p, SORTS) == res {
        return with(p, SORTS, 1, 2, 2, 2, 0);
    }
    with(p, SORTS, 1, 2, 1, plus(2, more), 0)
}

// Two constants of each of two sorts, and a symbol that takes both sorts.
fn choice_symbols(p: [u8; PLAN], res: usize, param0: usize, param1: usize) -> [u8; PLAN] {
    let x = with(p, SYMBOLS, 2, 1, param0, 0, 0);
    let y = with(x, SYMBOLS, 2, 1, param0, 0, 0);
    let z = with(y, SYMBOLS, 2, 1, param1, 0, 0);
    let w = with(z, SYMBOLS, 2, 1, param1, 0, 0);
    with(w, SYMBOLS, 2, 3, res, param0, param1)
}

fn choice_terms(p: [u8; PLAN]) -> [u8; PLAN] {
    let x = with(p, TERMS, 3, 1, 0, 0, 0);
    let y = with(x, TERMS, 3, 1, 1, 0, 0);
    let z = with(y, TERMS, 3, 1, 2, 0, 0);
    let w = with(z, TERMS, 3, 1, 3, 0, 0);
    let left = with(w, TERMS, 3, 3, 4, 0, 2);
    let right = with(left, TERMS, 3, 3, 4, 1, 3);
    with(right, LITERALS, 5, 2, 4, 5, 0)
}

// Literals, fills, and most often a total near the sum of the floors.
fn rest(p: [u8; PLAN], state: &mut u64) -> [u8; PLAN] {
    let literals = pick(state, 8);
    let q = records(p, LITERALS, literals, state);
    let total = greatest(floors(q), state);
    with(with_fills(q, *state), TOTAL, 6, 1, total, 0, 0)
}

// Fills in about half of the sheets. They are drawn from a copy of the state, so that the sheets are otherwise the same with them and without.
fn with_fills(p: [u8; PLAN], state: u64) -> [u8; PLAN] {
    let mut own = state;
    let fills = how_many_fills(&mut own);
    records(p, FILLS, fills, &mut own)
}

// The plan with up to n records more in a part.
pub(crate) fn records(p: [u8; PLAN], part: usize, n: usize, state: &mut u64) -> [u8; PLAN] {
    let mut q = p;
    for _ in 0..n {
        let more = one_more(q, part, state);
        q = more;
    }
    q
}

fn one_more(p: [u8; PLAN], part: usize, state: &mut u64) -> [u8; PLAN] {
    match part {
        SORTS => sort(p, state),
        SYMBOLS => symbol(p, state),
        TERMS => term(p, state),
        LITERALS => literal(p, state),
        _ => fill(p, state),
    }
}

fn how_many_sorts(way: usize) -> usize {
    if way < 3 {
        return 1;
    }
    if way < 5 {
        return 2;
    }
    3
}

fn sort(p: [u8; PLAN], state: &mut u64) -> [u8; PLAN] {
    let low = floor(state);
    let high = ceiling(low, state);
    with(p, SORTS, 1, 2, low, high, 0)
}

// 1 to 3, most often 1.
fn floor(state: &mut u64) -> usize {
    if pick(state, 6) < 4 {
        return 1;
    }
    plus(1, pick(state, 3))
}

// Most often one or two above the floor; it may be 16, or anything from 1 to 4.
fn ceiling(floor: usize, state: &mut u64) -> usize {
    let way = pick(state, 16);
    if way == 0 {
        return plus(1, pick(state, 4));
    }
    if way == 1 {
        return 16;
    }
    if way < 5 {
        return floor;
    }
    plus(plus(floor, 1), pick(state, 2))
}

fn how_many_symbols(state: &mut u64) -> usize {
    if pick(state, 16) == 0 {
        return 0;
    }
    plus(1, pick(state, 6))
}

fn symbol(p: [u8; PLAN], state: &mut u64) -> [u8; PLAN] {
    let sorts = count(p, SORTS);
    let result = pick(state, sorts);
    let takes = arity(pick(state, 8), count(p, SYMBOLS));
    let param0 = pick(state, sorts);
    let param1 = pick(state, sorts);
    with(p, SYMBOLS, 2, plus(1, takes), result, param0, param1)
}

// The first two symbols take no argument as a rule; of the others two in eight take none, four one and two two.
fn arity(way: usize, symbols: usize) -> usize {
    if way < 2 {
        return 0;
    }
    if way < 7 && symbols < 2 {
        return 0;
    }
    if way < 6 {
        return 1;
    }
    2
}

fn term(p: [u8; PLAN], state: &mut u64) -> [u8; PLAN] {
    let symbol = pick(state, count(p, SYMBOLS));
    let terms = count(p, TERMS);
    let from0 = pick(state, terms);
    let from1 = pick(state, terms);
    if count(p, SYMBOLS) == 0 || ENOUGH_TERMS <= terms {
        return p;
    }
    with_drawn_term(p, symbol, from0, from1)
}

// A term more, unless an argument of its sort is missing or the same term is there.
fn with_drawn_term(p: [u8; PLAN], symbol: usize, from0: usize, from1: usize) -> [u8; PLAN] {
    let y = record_at(p, SYMBOLS, symbol);
    let a = argument(p, 1 < y.length, y.y, from0);
    let b = argument(p, 2 < y.length, y.z, from1);
    if a == NONE || b == NONE || there(p, symbol, a, b) {
        return p;
    }
    with(p, TERMS, 3, wide(y.length), symbol, a, b)
}

// A term for one argument, 0 where the symbol takes none there.
fn argument(p: [u8; PLAN], taken: bool, sort: u8, from: usize) -> usize {
    if taken { of_sort(p, sort, from) } else { 0 }
}

// The first term of the sort, from one term on and round again.
fn of_sort(p: [u8; PLAN], sort: u8, from: usize) -> usize {
    let n = count(p, TERMS);
    for k in 0..n {
        let t = plus(from, k) % n;
        if sort_of(p, t) == sort {
            return t;
        }
    }
    NONE
}

// Whether the term is there.
fn there(p: [u8; PLAN], symbol: usize, a: usize, b: usize) -> bool {
    let n = count(p, TERMS);
    for k in 0..n {
        let t = record_at(p, TERMS, k);
        if wide(t.x) == symbol && wide(t.y) == a && wide(t.z) == b {
            return true;
        }
    }
    false
}

// Two literals in five say same.
fn literal(p: [u8; PLAN], state: &mut u64) -> [u8; PLAN] {
    let way = pick(state, 8);
    let kind = if pick(state, 5) < 2 { SAME } else { 5 };
    let terms = count(p, TERMS);
    let left = pick(state, terms);
    let from = pick(state, terms);
    if terms == 0 {
        return p;
    }
    with_drawn_literal(p, way, kind, left, from)
}

// A literal more: one in eight repeats the last one, one in eight contradicts it, and few set a term against itself.
fn with_drawn_literal(p: [u8; PLAN], way: usize, kind: u8, left: usize, from: usize) -> [u8; PLAN] {
    if way < 2 && 0 < count(p, LITERALS) {
        return after_last(p, way == 0);
    }
    let right = of_sort(p, sort_of(p, left), from);
    if left == right && 2 < way {
        return p;
    }
    with(p, LITERALS, kind, 2, left, right, 0)
}

// The last literal once more, or its opposite.
fn after_last(p: [u8; PLAN], again: bool) -> [u8; PLAN] {
    let l = record_at(p, LITERALS, minus(count(p, LITERALS), 1));
    let kind = if (l.kind == SAME) == again { SAME } else { 5 };
    with(p, LITERALS, kind, 2, wide(l.x), wide(l.y), 0)
}

fn how_many_fills(state: &mut u64) -> usize {
    if pick(state, 8) < 3 {
        return 0;
    }
    plus(1, pick(state, 6))
}

// A fill more, unless the symbol has one or no term is of its result's sort. (Without a symbol there is no term.)
fn fill(p: [u8; PLAN], state: &mut u64) -> [u8; PLAN] {
    let symbol = pick(state, count(p, SYMBOLS));
    let from = pick(state, count(p, TERMS));
    let y = record_at(p, SYMBOLS, symbol);
    let term = of_sort(p, y.x, from);
    if term == NONE || fill_of(p, symbol) < count(p, FILLS) {
        return p;
    }
    with(p, FILLS, 7, 2, symbol, term, 0)
}

fn floors(p: [u8; PLAN]) -> usize {
    let a = record_at(p, SORTS, 0);
    let b = record_at(p, SORTS, 1);
    let c = record_at(p, SORTS, 2);
    plus(plus(wide(a.x), wide(b.x)), wide(c.x))
}

fn greatest(floors: usize, state: &mut u64) -> usize {
    let way = pick(state, 8);
    if way == 0 {
        return plus(1, pick(state, 6));
    }
    if way == 1 {
        return 128;
    }
    plus(floors, pick(state, 6))
}
