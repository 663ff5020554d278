// Writes an answer, given by its sizes and codes: each symbol's table, the cells that no term reaches among them, in front of the caller's buffers.
#![tactic(auto)]

ghost use Rattle.std.specs.Prelude.{◌≡◌, ℕ, ◌≤◌, ◌<◌, length, take};
ghost use Rattle.prelude.specs.Limits.{most_symbols, most_terms, most_fills, most_codes};
ghost use Rattle.prelude.specs.Lists.{at, firsts, fronted};
ghost use Rattle.logic.specs.Sheet.{Sheet};
ghost use Rattle.layout.specs.Packed.{view};
ghost use Rattle.tables.specs.Grid.{cell};
ghost use Rattle.tables.specs.Parts.{Packs};
ghost use Rattle.writing.specs.Written.{filled_with, unforced_at, answer_bytes, Writable, AnswerWritten};
ghost use Rattle.writing.specs.Parts.{Filled};

use layout::Parsed;
use prelude::{BYTE_VALUES, MISSING, MOST_CODES, MOST_SORTS, wide};

// Writes an answer in front of both buffers, and gives the sum of its sizes.
pub fn write_answer(
    p: Parsed,
    sizes: [u8; MOST_SORTS],
    codes: [u8; BYTE_VALUES],
    code_out: &mut [u8],
    table_out: &mut [u8],
) -> usize
    requires { Writable p (at sizes) (at codes) (length table_out.old) × (p.terms ≤ length code_out.old) }
    ensures { (sh : Sheet) → Packs sh p → AnswerWritten sh (at sizes) (at codes) code_out.old table_out.old code_out.new table_out.new result }
{
    let terms = p.terms;
    prelude::copy(&codes[..terms], code_out);
    let sorts = p.sorts;
    prelude::copy(&sizes[..sorts], table_out);
    write_tables(table_out, p, sizes, codes);
    tables::sum_of(sizes, sorts)
}

// What a cell that no term reaches holds, in this row and column of a symbol's table: where the symbol takes one argument, of the sort of its result, the
// argument's own code, and else what the symbol is filled with. This is the one place that gives such a cell its code.
fn unforced(p: Parsed, fill: u8, symbol: usize, row: usize, col: usize) -> u8
    requires { (symbol < most_symbols) × (row < most_codes) × (col < most_codes) }
    ensures { (sh : Sheet) (size c : ℕ → ℕ) → Packs sh p → symbol < length sh.symbols → fill ≡ filled_with sh c symbol → result ≡ unforced_at sh size c symbol row col }
{
    let own = row as u8;
    let result = p.result[symbol];
    let first = p.param0[symbol];
    let second = p.param1[symbol];
    if second == MISSING {
        if first == result {
            return own;
        }
    }
    fill
}

// What a symbol is filled with: the code of its fill's term, 0 where it has no fill.
// Kept: a code, not an Option of one: `filled_with` says 0 there, and the edit `unforced_one` changes it.
fn fill_code(p: Parsed, codes: [u8; BYTE_VALUES], symbol: usize) -> u8
    requires { p.fills ≤ most_fills }
    ensures { (sh : Sheet) → Packs sh p → result ≡ filled_with sh (at codes) symbol }
{
    for k in 0..p.fills {
        if wide(p.filled[k]) == symbol {
            let term = p.filler[k];
            let i = wide(term);
            let code = codes[i];
            return code;
        }
    }
    0u8
}

// A row of a symbol's table before any term is put in.
fn unforced_row(p: Parsed, fill: u8, symbol: usize, row: usize, columns: usize) -> [u8; MOST_CODES]
    requires { (symbol < most_symbols) × (row < most_codes) × (columns ≤ most_codes) }
    ensures { (sh : Sheet) (size c : ℕ → ℕ) → Packs sh p → symbol < length sh.symbols → fill ≡ filled_with sh c symbol → (col : ℕ) → col < columns → at result col ≡ unforced_at sh size c symbol row col }
{
    let mut cells = [0u8; MOST_CODES];
    for col in 0..columns {
        cells[col] = unforced(p, fill, symbol, row, col);
    }
    cells
}

// A symbol's table before any term is put in.
// Kept: rows and table apart, one loop each, and for the rows and columns that there are alone.
fn unforced_table(
    p: Parsed,
    fill: u8,
    symbol: usize,
    rows: usize,
    columns: usize,
) -> [[u8; MOST_CODES]; MOST_CODES]
    requires { (symbol < most_symbols) × (rows ≤ most_codes) × (columns ≤ most_codes) }
    ensures { (sh : Sheet) (size c : ℕ → ℕ) → Packs sh p → symbol < length sh.symbols → fill ≡ filled_with sh c symbol → (row col : ℕ) → row < rows → col < columns → cell result row col ≡ unforced_at sh size c symbol row col }
{
    let mut t = [[0u8; MOST_CODES]; MOST_CODES];
    for row in 0..rows {
        let cells = unforced_row(p, fill, symbol, row, columns);
        t[row] = cells;
    }
    t
}

// The table of a symbol. The first term that reaches a cell decides; a cell that no term reaches is unforced.
fn symbol_table(
    p: Parsed,
    codes: [u8; BYTE_VALUES],
    symbol: usize,
    rows: usize,
    columns: usize,
) -> [[u8; MOST_CODES]; MOST_CODES]
    requires terms_le_most_terms { (p.terms ≤ most_terms) × (p.fills ≤ most_fills) × ((i : ℕ) → at codes i < most_codes) }
    requires symbol_lt_most_symbols { (symbol < most_symbols) × (rows ≤ most_codes) × (columns ≤ most_codes) }
    ensures { (sh : Sheet) (size : ℕ → ℕ) → Packs sh p → symbol < length sh.symbols → Filled (view p) (at codes) symbol (unforced_at sh size (at codes) symbol) rows columns 0 p.terms result }
{
    let fill = fill_code(p, codes, symbol);
    let mut t = unforced_table(p, fill, symbol, rows, columns);
    for i in (0..p.terms).rev() {
        if wide(p.symbol[i]) == symbol {
            let a = wide(p.arg0[i]);
            let b = wide(p.arg1[i]);
            let u = tables::with_cell(t, wide(codes[a]), wide(codes[b]), codes[i]);
            t = u;
        }
    }
    t
}

// Writes the table of each symbol into its stretch, the sizes standing in front already.
fn write_tables(out: &mut [u8], p: Parsed, sizes: [u8; MOST_SORTS], codes: [u8; BYTE_VALUES])
    requires { Writable p (at sizes) (at codes) (length out.old) }
    ensures { (sh : Sheet) → Packs sh p → take (length sh.bounds) out.old ≡ firsts (length sh.bounds) (at sizes) → out.new ≡ fronted (answer_bytes sh (at sizes) (at codes)) out.old }
{
    let offsets = tables::extents(p, sizes);
    let n = p.symbols;
    for f in 0..n {
        let rows = tables::width_of(sizes, wide(p.param0[f]));
        let columns = tables::width_of(sizes, wide(p.param1[f]));
        let t = symbol_table(p, codes, f, rows, columns);
        let start = offsets[f];
        let end = offsets[f + 1];
        tables::write_table(&mut out[start..end], t, rows, columns);
    }
}
