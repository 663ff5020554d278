// The fitted sheet of a drawn sheet (docs/FORMAT.md, The fitted sheet), written from the listing's answer: its key, and its tables with the unforced
// cells filled. A code's number, by sort and then code, is that of its term, and that of its symbol behind the old symbols; a cell's number is its
// place behind the sizes.
use crate::keys::KEY;
use crate::shape::{ROOM, Shape, length, shaped, stretch_of};
use test_sheets::encode;
use test_sheets::encode::SHEET;
use test_sheets::numbers::{byte, larger, minus, plus, times, wide};
use test_sheets::plan::{MOST_SORTS, PLAN, Record, SAME, SORTS, SYMBOLS, TOTAL, count, record_at};

// The most symbols, terms and literals of a sheet.
const NAMES: usize = 64;

const EXPRESSIONS: usize = 128;

const STATEMENTS: usize = 128;

// Whether the fitted sheet would have more of them.
pub fn too_many(p: [u8; PLAN], key: [u8; KEY]) -> bool {
    let codes = wide(key[0]);
    let cells = minus(length(p, [key[1], key[2], key[3]]), count(p, SORTS));
    let pairs = plus(plus(pairs(key[1]), pairs(key[2])), pairs(key[3]));
    NAMES < plus(count(p, SYMBOLS), codes)
        || EXPRESSIONS < plus(codes, cells)
        || STATEMENTS < plus(pairs, cells)
}

// Writes the fitted sheet from the start of the bytes and gives its length.
pub fn write(p: [u8; PLAN], key: [u8; KEY], tables: &[u8; ROOM], bytes: &mut [u8; SHEET]) -> usize {
    let mut limit = [0u8; ROOM];
    let s = shaped(p, [key[1], key[2], key[3]], &mut limit);
    let sorts = put_sorts(p, key, bytes);
    let old = put_old_symbols(p, bytes, sorts);
    let symbols = put_code_symbols(key, bytes, old);
    let codes = put_code_terms(p, key, bytes, symbols);
    let terms = put_cell_terms(p, key, s, bytes, codes);
    let differs = put_differs(key, bytes, terms);
    let sames = put_sames(p, key, s, tables, bytes, differs);
    put_total(p, key, bytes, sames)
}

// How many pairs so many codes make.
fn pairs(size: u8) -> usize {
    times(wide(size), minus(wide(size), 1)) / 2
}

fn put_sorts(p: [u8; PLAN], key: [u8; KEY], bytes: &mut [u8; SHEET]) -> usize {
    let n = count(p, SORTS);
    let mut at: usize = 0;
    for sort in 0..n {
        let size = size_of(key, sort);
        at = put(bytes, at, 1, 2, size, size, 0);
    }
    at
}

fn put_old_symbols(p: [u8; PLAN], bytes: &mut [u8; SHEET], from: usize) -> usize {
    let n = count(p, SYMBOLS);
    let mut at = from;
    for k in 0..n {
        at = encode::put(bytes, at, record_at(p, SYMBOLS, k));
    }
    at
}

fn put_code_symbols(key: [u8; KEY], bytes: &mut [u8; SHEET], from: usize) -> usize {
    let n = wide(key[0]);
    let mut at = from;
    for code in 0..n {
        at = put(bytes, at, 2, 1, sort_of_code(key, code), 0, 0);
    }
    at
}

fn put_code_terms(p: [u8; PLAN], key: [u8; KEY], bytes: &mut [u8; SHEET], from: usize) -> usize {
    let n = wide(key[0]);
    let mut at = from;
    for code in 0..n {
        at = put(bytes, at, 3, 1, plus(count(p, SYMBOLS), code), 0, 0);
    }
    at
}

fn put_cell_terms(
    p: [u8; PLAN],
    key: [u8; KEY],
    s: Shape,
    bytes: &mut [u8; SHEET],
    from: usize,
) -> usize {
    let n = minus(s.length, count(p, SORTS));
    let mut at = from;
    for cell in 0..n {
        at = put_cell_term(p, key, s, cell, bytes, at);
    }
    at
}

// The cell's symbol at the codes of its row and its column. What is written for an argument that the symbol does not take lies past the record.
fn put_cell_term(
    p: [u8; PLAN],
    key: [u8; KEY],
    s: Shape,
    cell: usize,
    bytes: &mut [u8; SHEET],
    at: usize,
) -> usize {
    let f = symbol_of(p, s, cell);
    let y = record_at(p, SYMBOLS, f);
    let its = stretch_of(s, f);
    let columns = larger(its.columns, 1);
    let k = minus(plus(count(p, SORTS), cell), its.from);
    let first = plus(first_code(key, y.y), k / columns);
    let second = plus(first_code(key, y.z), k % columns);
    put(bytes, at, 3, wide(y.length), f, first, second)
}

fn put_differs(key: [u8; KEY], bytes: &mut [u8; SHEET], from: usize) -> usize {
    let n = wide(key[0]);
    let mut at = from;
    for code in 0..n {
        at = put_differs_of(key, code, bytes, at);
    }
    at
}

// The code differs from each later one of its sort.
fn put_differs_of(key: [u8; KEY], code: usize, bytes: &mut [u8; SHEET], from: usize) -> usize {
    let n = wide(key[0]);
    let mut at = from;
    for other in 0..n {
        if code < other && sort_of_code(key, code) == sort_of_code(key, other) {
            at = put(bytes, at, 5, 2, code, other, 0);
        }
    }
    at
}

fn put_sames(
    p: [u8; PLAN],
    key: [u8; KEY],
    s: Shape,
    tables: &[u8; ROOM],
    bytes: &mut [u8; SHEET],
    from: usize,
) -> usize {
    let n = minus(s.length, count(p, SORTS));
    let mut at = from;
    for cell in 0..n {
        let y = record_at(p, SYMBOLS, symbol_of(p, s, cell));
        let k = plus(count(p, SORTS), cell) % ROOM;
        let code = plus(first_code(key, y.x), wide(tables[k]));
        at = put(bytes, at, wide(SAME), 2, plus(wide(key[0]), cell), code, 0);
    }
    at
}

// The sum of the sizes, where the sheet has a total.
fn put_total(p: [u8; PLAN], key: [u8; KEY], bytes: &mut [u8; SHEET], at: usize) -> usize {
    if count(p, TOTAL) == 0 {
        return at;
    }
    put(bytes, at, 6, 1, wide(key[0]), 0, 0)
}

fn put(
    bytes: &mut [u8; SHEET],
    at: usize,
    kind: usize,
    length: usize,
    x: usize,
    y: usize,
    z: usize,
) -> usize {
    let r = Record {
        kind: byte(kind),
        length: byte(length),
        x: byte(x),
        y: byte(y),
        z: byte(z),
    };
    encode::put(bytes, at, r)
}

fn size_of(key: [u8; KEY], sort: usize) -> usize {
    let k = 1 + sort % MOST_SORTS;
    wide(key[k])
}

// The number of a sort's first code.
fn first_code(key: [u8; KEY], sort: u8) -> usize {
    match sort {
        0 => 0,
        1 => wide(key[1]),
        _ => plus(wide(key[1]), wide(key[2])),
    }
}

fn sort_of_code(key: [u8; KEY], code: usize) -> usize {
    if code < first_code(key, 1) {
        return 0;
    }
    if code < first_code(key, 2) { 1 } else { 2 }
}

// The symbol whose table has the cell.
fn symbol_of(p: [u8; PLAN], s: Shape, cell: usize) -> usize {
    let n = count(p, SYMBOLS);
    for f in 0..n {
        let its = stretch_of(s, f);
        if plus(count(p, SORTS), cell) < its.to {
            return f;
        }
    }
    n
}
