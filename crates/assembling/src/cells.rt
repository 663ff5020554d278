// What the fitted sheet has for each cell of the old names' tables: an expression, and that it is the same as the expression of its code.
ghost use Rattle.std.specs.Prelude.{◌≡◌, ℕ, ◌+◌, ◌≤◌, ◌<◌, length};
ghost use Rattle.prelude.specs.Lists.{at};
ghost use Rattle.prelude.specs.Limits.{most_sorts, most_symbols, most_terms, most_literals, most_codes};
ghost use Rattle.logic.specs.Sheet.{symbol_at};
ghost use Rattle.layout.specs.Packed.{packed};
ghost use Rattle.tables.specs.Layout.{cells};
ghost use Rattle.logic.specs.Order.{sum_of};
ghost use Rattle.fitted_sheet.specs.FittedSheet.{cell_terms, sames, table_terms};
ghost use Rattle.assembling.specs.Parts.{Building, Source, SizesOf, StartsOf, OffsetsOf, TablesOf, cells_before, more_terms, more_literals, sames_of, CellPayload};

use layout::grow::{with_literal, with_term};
use layout::{Parsed, Payload};
use prelude::{MISSING, MOST_SORTS, MOST_SYMBOLS, wide};

// An expression for each cell of the old names' tables, in table order.
pub(crate) fn with_cell_terms(
    q: Parsed,
    p: Parsed,
    sizes: [u8; MOST_SORTS],
    starts: [u8; MOST_SORTS],
) -> Parsed
    requires building { Building q × (p.symbols ≤ q.symbols) × (q.symbols ≤ most_symbols) }
    requires sizes_of { (t : Source p) × (SizesOf t (at sizes) × StartsOf t (at starts) × (q.terms + cells_before t p.symbols ≤ most_terms)) }
    ensures { (b : Building q) (t : Source p) → SizesOf t (at sizes) → StartsOf t (at starts) → result ≡ packed (more_terms b.sheet (cell_terms t.sheet t.structure)) }
{
    let n = p.symbols;
    let mut out = q;
    for f in 0..n {
        out = with_table_terms(out, p, sizes, starts, f);
    }
    out
}

// An expression for each cell of one table.
fn with_table_terms(
    q: Parsed,
    p: Parsed,
    sizes: [u8; MOST_SORTS],
    starts: [u8; MOST_SORTS],
    f: usize,
) -> Parsed
    requires building { Building q × (f < q.symbols) × (q.symbols ≤ most_symbols) }
    requires sizes_of { (t : Source p) × (SizesOf t (at sizes) × StartsOf t (at starts) × (f < length t.sheet.symbols) × (q.terms + cells t.structure.size (symbol_at t.sheet f).params ≤ most_terms)) }
    ensures { (b : Building q) (t : Source p) → SizesOf t (at sizes) → StartsOf t (at starts) → f < length t.sheet.symbols → result ≡ packed (more_terms b.sheet (table_terms t.sheet t.structure f)) }
{
    let rows = tables::width_of(sizes, wide(p.param0[f]));
    let columns = tables::width_of(sizes, wide(p.param1[f]));
    let many = rows * columns;
    let mut out = q;
    for k in 0..many {
        let term = cell_term(p, starts, f, k / columns, k % columns);
        out = with_term(out, term);
    }
    out
}

// A name applied to the expressions of a row's and a column's code; a missing argument is left out.
fn cell_term(p: Parsed, starts: [u8; MOST_SORTS], f: usize, row: usize, col: usize) -> Payload
    requires { (t : Source p) × (StartsOf t (at starts) × (f < length t.sheet.symbols) × (row < most_codes) × (col < most_codes)) }
    ensures { (t : Source p) → StartsOf t (at starts) → f < length t.sheet.symbols → CellPayload t f row col result }
{
    let name = f as u8;
    let first = p.param0[f];
    let second = p.param1[f];
    if first == MISSING {
        return Payload {
            len: 1,
            b0: name,
            b1: MISSING,
            b2: MISSING,
        };
    }
    let x = code_term(starts, wide(first), row);
    if second == MISSING {
        return Payload {
            len: 2,
            b0: name,
            b1: x,
            b2: MISSING,
        };
    }
    let y = code_term(starts, wide(second), col);
    Payload {
        len: 3,
        b0: name,
        b1: x,
        b2: y,
    }
}

// The expression of a code of field s.
fn code_term(starts: [u8; MOST_SORTS], s: usize, code: usize) -> u8
    requires { (s < most_sorts) × (at starts s + code < 256) }
    ensures { result ≡ at starts s + code }
{
    let start = wide(starts[s]);
    let number = start + code;
    number as u8
}

// Same for each cell of the old names' tables and its code, in table order; the expressions of the codes stand before those of the cells.
pub(crate) fn with_sames(
    q: Parsed,
    p: Parsed,
    starts: [u8; MOST_SORTS],
    offsets: [usize; MOST_SYMBOLS + 1],
    codes: usize,
    tables: &[u8],
) -> Parsed
    requires building { Building q }
    requires starts_of { (t : Source p) × (StartsOf t (at starts) × OffsetsOf t (at offsets) × TablesOf t tables.now × (codes ≡ sum_of t.structure t.sheet) × (codes + cells_before t p.symbols < 256) × (q.literals + cells_before t p.symbols ≤ most_literals)) }
    ensures { (b : Building q) (t : Source p) → StartsOf t (at starts) → OffsetsOf t (at offsets) → TablesOf t tables.now → codes ≡ sum_of t.structure t.sheet → result ≡ packed (more_literals b.sheet (sames t.sheet t.structure)) }
{
    let n = p.symbols;
    let sorts = p.sorts;
    let mut out = q;
    for f in 0..n {
        let from = offsets[f];
        let to = offsets[f + 1];
        let result = wide(p.result[f]);
        let first = codes + (from - sorts);
        out = with_table_sames(out, first, starts, result, &tables[from..to]);
    }
    out
}

// Same for each cell of one table, the first of them having the expression `first`, and its code of field s.
fn with_table_sames(
    q: Parsed,
    first: usize,
    starts: [u8; MOST_SORTS],
    s: usize,
    cells: &[u8],
) -> Parsed
    requires { Building q × (s < most_sorts) × (first + length cells.now < 256) × (q.literals + length cells.now ≤ most_literals) × ((k : ℕ) → k < length cells.now → at starts s + at cells.now k < 256) }
    ensures { (b : Building q) → result ≡ packed (more_literals b.sheet (sames_of first (at starts s) cells.now)) }
{
    let mut out = q;
    for (k, code) in cells.iter().enumerate() {
        let left = (first + k) as u8;
        let right = code_term(starts, s, wide(*code));
        out = with_literal(out, 1, left, right);
    }
    out
}
