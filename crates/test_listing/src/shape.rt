// The tables of interpretations, plainly: their shape at given sizes, and an odometer over their cells.
use test_sheets::numbers::{byte, plus, times, wide};
use test_sheets::plan::{MOST_SORTS, MOST_SYMBOLS, PLAN, SORTS, SYMBOLS, count, record_at};

// The most interpretations that are listed for one question on one sheet.
pub const BUDGET: usize = 100000;

// The most bytes of tables that are listed.
pub const ROOM: usize = 512;

// Where a symbol's cells lie in the tables, and how many a row of them has.
#[derive(Clone, Copy, Drop)]
pub struct Stretch {
    pub from: usize,
    pub to: usize,
    pub columns: usize,
}

// The tables at given sizes: the stretch of each symbol, how long the tables are, and how many tables there are (one more than the budget
// where they are too many or too long).
#[derive(Clone, Copy, Drop)]
pub struct Shape {
    pub size: [u8; MOST_SORTS],
    pub stretch: [Stretch; MOST_SYMBOLS],
    pub length: usize,
    pub count: usize,
}

// The shape at these sizes, and how many codes each cell has.
pub fn shaped(p: [u8; PLAN], size: [u8; MOST_SORTS], limit: &mut [u8; ROOM]) -> Shape {
    let n = count(p, SYMBOLS);
    let nowhere = Stretch {
        from: 0,
        to: 0,
        columns: 0,
    };
    let mut s = Shape {
        size,
        stretch: [nowhere; MOST_SYMBOLS],
        length: count(p, SORTS),
        count: 1,
    };
    for k in 0..n {
        s = with_symbol(p, s, k, limit);
    }
    if ROOM < s.length {
        s.count = BUDGET + 1;
    }
    s
}

// How long the tables at these sizes are.
pub fn length(p: [u8; PLAN], size: [u8; MOST_SORTS]) -> usize {
    let mut limit = [0u8; ROOM];
    let s = shaped(p, size, &mut limit);
    s.length
}

pub fn stretch_of(s: Shape, symbol: usize) -> Stretch {
    let k = symbol % MOST_SYMBOLS;
    s.stretch[k]
}

pub fn capped(n: usize) -> usize {
    if BUDGET < n { BUDGET + 1 } else { n }
}

// The first tables of a shape: the sizes, and every cell 0. (The size of a sort that is not there is 0, as its place's cell is.)
pub fn first_tables(s: Shape) -> [u8; ROOM] {
    let size = s.size;
    let mut tables = [0u8; ROOM];
    tables[0] = size[0];
    tables[1] = size[1];
    tables[2] = size[2];
    tables
}

// One turn of an odometer over the cells from..to, each below its limit, the last one fastest; after the last tables come the first again.
pub fn turn(tables: &mut [u8; ROOM], limit: &[u8; ROOM], from: usize, to: usize) {
    for i in (from..to).rev() {
        if rolled(tables, limit, i) {
            return;
        }
    }
}

// One cell's turn; false where it falls back to 0.
fn rolled(tables: &mut [u8; ROOM], limit: &[u8; ROOM], i: usize) -> bool {
    let k = i % ROOM;
    let next = wide(tables[k]) + 1;
    if next < wide(limit[k]) {
        tables[k] = byte(next);
        return true;
    }
    tables[k] = 0;
    false
}

fn with_symbol(p: [u8; PLAN], s: Shape, symbol: usize, limit: &mut [u8; ROOM]) -> Shape {
    let y = record_at(p, SYMBOLS, symbol);
    let rows = side(s, 1 < y.length, y.y);
    let columns = side(s, 2 < y.length, y.z);
    let from = s.length;
    let to = plus(from, times(rows, columns));
    let count = with_cells(from, to, size_of(s, y.x), s.count, limit);
    let k = symbol % MOST_SYMBOLS;
    let mut t = s;
    t.stretch[k] = Stretch { from, to, columns };
    t.length = to;
    t.count = count;
    t
}

// How many codes an argument has, 1 where the symbol does not take it.
fn side(s: Shape, taken: bool, sort: u8) -> usize {
    if taken { wide(size_of(s, sort)) } else { 1 }
}

fn size_of(s: Shape, sort: u8) -> u8 {
    let k = wide(sort) % MOST_SORTS;
    s.size[k]
}

// Gives the cells from..to their limit, and multiplies the count by it once for each, up to the budget.
fn with_cells(from: usize, to: usize, size: u8, count: usize, limit: &mut [u8; ROOM]) -> usize {
    let mut n = count;
    for i in from..to {
        let k = i % ROOM;
        limit[k] = size;
        n = capped(times(n, wide(size)));
    }
    n
}
