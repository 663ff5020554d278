// The layout of tables: lengths, offsets and cells; the tests of judge, and one table written.
#![tactic(auto)]

ghost use Rattle.std.specs.Prelude.{ℕ, ◌+◌, ◌*◌, ◌≤◌, ◌<◌, ◌≡◌, ◌&&◌, length, leb, ltb, eqb};
ghost use Rattle.std.proofs.Math.Seq.{paste};
ghost use Rattle.logic.specs.Sheet.{Sheet};
ghost use Rattle.prelude.specs.Tests.{within, every};
ghost use Rattle.prelude.specs.Lists.{at, sum_to, firsts};
ghost use Rattle.prelude.specs.Limits.{most_sorts, most_symbols, most_terms, most_literals, most_codes};
ghost use Rattle.logic.specs.Structure.{code};
ghost use Rattle.tables.specs.Layout.{decoded};
ghost use Rattle.tables.specs.Tests.{entries_right, in_bounds, agree, statements, well_laid};
ghost use Rattle.tables.specs.Grid.{cell, Put, grid};
ghost use Rattle.tables.specs.Parts.{Packs, Limited, countable_cells, countable_bytes, width, CellsOf, SmallOffsets, Extents, Laying};

use layout::Parsed;
use prelude::{
    BYTE_VALUES, GREATEST_SIZE, MOST_CODES, MOST_SORTS, MOST_SYMBOLS, copy, lesser, wide,
};

// The answer to the question "judge", where it is not turned down.
#[derive(Clone, Copy)]
pub enum Judgement {
    Fits,
    OutOfBounds,
    // the number of the first statement that is not satisfied
    Broken(usize),
}

// Cause 12 does not apply: sizes, length and entries are right.
pub fn well_laid(p: Parsed, t: &[u8]) -> bool
    requires { Limited p }
    ensures { (sh : Sheet) → Packs sh p → result ≡ well_laid sh t.now }
{
    let n = p.sorts;
    if !sizes_right(n, t) {
        return false;
    }
    let sizes = sizes_of(n, t);
    let offsets = extents(p, sizes);
    let end = p.symbols;
    if t.len() != offsets[end] {
        return false;
    }
    entries_right(p, sizes, offsets, t)
}

// The sizes that stand in front of the tables.
pub fn sizes_of(n: usize, t: &[u8]) -> [u8; MOST_SORTS]
    requires { n ≤ most_sorts }
    ensures { (s : ℕ) → s < n → at result s ≡ at t.now s }
{
    let mut sizes = [0u8; MOST_SORTS];
    let there = lesser(n, t.len());
    copy(&t[..there], &mut sizes);
    sizes
}

// The offset of each table at these sizes, and behind them the length of all tables.
pub fn extents(p: Parsed, sizes: [u8; MOST_SORTS]) -> [usize; MOST_SYMBOLS + 1]
    requires { (p.sorts ≤ most_sorts) × (p.symbols ≤ most_symbols) }
    ensures { Extents p (at sizes) result }
{
    let mut offsets = [0usize; MOST_SYMBOLS + 1];
    offsets[0] = p.sorts;
    let n = p.symbols;
    for f in 0..n {
        let many = cells_of(p, sizes, f);
        offsets[f + 1] = offsets[f] + many;
    }
    offsets
}

// The sizes lie from floor to ceiling and sum to at most the total.
pub fn in_bounds(p: Parsed, sizes: [u8; MOST_SORTS]) -> bool
    requires { p.sorts ≤ most_sorts }
    ensures { (sh : Sheet) → Packs sh p → result ≡ in_bounds sh (at sizes) }
{
    let n = p.sorts;
    let mut sum: usize = 0;
    for s in 0..n {
        let size = wide(sizes[s]);
        let floor = wide(p.floor[s]);
        let ceiling = wide(p.ceiling[s]);
        if size < floor {
            return false;
        }
        if ceiling < size {
            return false;
        }
        sum += size;
    }
    sum <= p.total
}

// The code of each term, 0 past the terms.
// Kept: sizes and offsets stay two parameters, here and in entry_of: the types of public functions may not change.
pub fn codes_of(
    p: Parsed,
    sizes: [u8; MOST_SORTS],
    offsets: [usize; MOST_SYMBOLS + 1],
    t: &[u8],
) -> [u8; BYTE_VALUES]
    requires { (p.terms ≤ most_terms) × SmallOffsets offsets }
    ensures { (sh : Sheet) → Laying sh p sizes offsets t.now → (i : ℕ) → at result i ≡ code (decoded sh t.now) sh i }
{
    let mut codes = [0u8; BYTE_VALUES];
    let param1 = p.param1;
    let n = p.terms;
    for i in 0..n {
        let f = wide(p.symbol[i]);
        let a = wide(p.arg0[i]);
        let b = wide(p.arg1[i]);
        let x = wide(codes[a]);
        let y = wide(codes[b]);
        codes[i] = entry_of(param1, sizes, offsets, t, f, x, y);
    }
    codes
}

// The first broken statement, the terms having these codes.
pub fn first_broken(p: Parsed, codes: [u8; BYTE_VALUES]) -> Judgement
    requires { p.literals ≤ most_literals }
    ensures { (sh : Sheet) → Packs sh p → result ≡ statements (at codes) 0 sh.literals }
{
    let n = p.literals;
    for k in 0..n {
        let a = wide(p.left[k]);
        let b = wide(p.right[k]);
        let equal = p.equal[k];
        if !agrees(equal, codes[a], codes[b]) {
            return Judgement::Broken(k);
        }
    }
    Judgement::Fits
}

// A statement, 1 for same and 0 for differ, holds of two codes.
// Kept: `equal` is a byte of the parsed sheet, not a bool: a public function's type may not ask more, and the contract holds at every byte.
pub fn agrees(equal: u8, x: u8, y: u8) -> bool
    ensures { result ≡ agree (eqb equal 1) (eqb x y) }
{
    if equal == 1 {
        return x == y;
    }
    x != y
}

// The sum of the first n sizes.
pub fn sum_of(sizes: [u8; MOST_SORTS], n: usize) -> usize
    requires { n ≤ most_sorts }
    ensures { result ≡ sum_to n (at sizes) }
{
    let mut sum: usize = 0;
    for size in &sizes[..n] {
        sum += wide(*size);
    }
    sum
}

// The code in a cell of a table.
pub fn cell_of(t: [[u8; MOST_CODES]; MOST_CODES], row: usize, column: usize) -> u8
    requires { (row < most_codes) × (column < most_codes) }
    ensures { result ≡ cell t row column }
{
    t[row][column]
}

// The table with one cell set.
pub fn with_cell(
    t: [[u8; MOST_CODES]; MOST_CODES],
    row: usize,
    column: usize,
    code: u8,
) -> [[u8; MOST_CODES]; MOST_CODES]
    requires { (row < most_codes) × (column < most_codes) }
    ensures { Put t result row column code }
{
    let mut u = t;
    u[row][column] = code;
    u
}

// How many rows or columns a parameter of sort s gives a table; a missing one is past the sorts.
pub fn width_of(sizes: [u8; MOST_SORTS], s: usize) -> usize
    ensures { (result ≡ width (at sizes) s) × (result < 256) }
{
    if s < MOST_SORTS {
        return wide(sizes[s]);
    }
    1
}

// What the table of symbol f holds at two argument codes, a missing one being 0.
pub fn entry_of(
    param1: [u8; MOST_SYMBOLS],
    sizes: [u8; MOST_SORTS],
    offsets: [usize; MOST_SYMBOLS + 1],
    t: &[u8],
    f: usize,
    a: usize,
    b: usize,
) -> u8
    requires { SmallOffsets offsets × (a < 256) × (b < 256) }
    ensures { f < most_symbols → result ≡ at t.now (at offsets f + (a * width (at sizes) (at param1 f) + b)) }
{
    if MOST_SYMBOLS <= f {
        return 0;
    }
    let columns = width_of(sizes, wide(param1[f]));
    let start = offsets[f];
    byte_at(t, start + (a * columns + b))
}

// Writes one symbol's table, which is the whole stretch, row by row.
pub fn write_table(
    out: &mut [u8],
    cells: [[u8; MOST_CODES]; MOST_CODES],
    rows: usize,
    columns: usize,
)
    requires { (rows ≤ most_codes) × (columns ≤ most_codes) × (length out.old ≡ rows * columns) }
    ensures { out.new ≡ grid cells rows columns }
{
    let mut start: usize = 0;
    for row in &cells[..rows] {
        write_row(out, start, *row, columns);
        start += columns;
    }
}

// No size is missing, 0 or above the most codes.
fn sizes_right(n: usize, t: &[u8]) -> bool
    ensures { result ≡ (leb n (length t.now) && every n (λ s. within 1 most_codes (at t.now s))) }
{
    n <= t.len()
        && t[..n]
            .iter()
            .all(|size| 1 <= *size && *size <= GREATEST_SIZE)
}

// No entry of a table is at or past the size of its symbol's sort.
fn entries_right(
    p: Parsed,
    sizes: [u8; MOST_SORTS],
    offsets: [usize; MOST_SYMBOLS + 1],
    t: &[u8],
) -> bool
    requires { (p.symbols ≤ most_symbols) × SmallOffsets offsets }
    ensures { (sh : Sheet) → Laying sh p sizes offsets t.now → result ≡ every (length sh.symbols) (entries_right sh t.now) }
{
    let n = p.symbols;
    for f in 0..n {
        let many = cells_of(p, sizes, f);
        let result = wide(p.result[f]);
        let bound = width_of(sizes, result);
        let from = offsets[f];
        if !below(t, from, many, bound) {
            return false;
        }
    }
    true
}

// All n entries from a place on are below the bound.
fn below(t: &[u8], from: usize, n: usize, bound: usize) -> bool
    requires { (from ≤ countable_bytes) × (n ≤ countable_cells) }
    ensures { result ≡ every n (λ k. ltb (at t.now (from + k)) bound) }
{
    (from..from + n).all(|i| wide(byte_at(t, i)) < bound)
}

// How many cells the table of symbol f has at these sizes.
fn cells_of(p: Parsed, sizes: [u8; MOST_SORTS], f: usize) -> usize
    requires { f < most_symbols }
    ensures { CellsOf p (at sizes) f result }
{
    let a = wide(p.param0[f]);
    let b = wide(p.param1[f]);
    let rows = width_of(sizes, a);
    let columns = width_of(sizes, b);
    rows * columns
}

// The byte at a place, 0 past the end.
fn byte_at(t: &[u8], i: usize) -> u8
    ensures { result ≡ at t.now i }
{
    t.get(i).copied().unwrap_or(0)
}

// Writes the first cells of a row from a place on.
fn write_row(out: &mut [u8], start: usize, row: [u8; MOST_CODES], columns: usize)
    requires { (columns ≤ most_codes) × (start + columns ≤ length out.old) }
    ensures { out.new ≡ paste out.old start (firsts columns (at row)) columns }
{
    copy(&row[..columns], &mut out[start..start + columns]);
}
