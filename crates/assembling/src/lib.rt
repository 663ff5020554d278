// The fitted sheet put together as a parsed sheet, list by list, from the old sheet and the tables of an answer.
#![tactic(auto)]

mod cells; // the expressions and the same statements of the table cells
mod codes; // the names, the expressions and the differ statements of the codes
pub mod limits; // cause 14

ghost use Rattle.std.specs.Prelude.{◌≡◌, false, ℕ, ◌≤◌, ◌<◌};
ghost use Rattle.prelude.specs.Lists.{at, sum_to};
ghost use Rattle.prelude.specs.Limits.{most_sorts};
ghost use Rattle.logic.specs.Sheet.{Sheet};
ghost use Rattle.logic.specs.Order.{sum_of};
ghost use Rattle.layout.specs.Packed.{packed};
ghost use Rattle.tables.specs.Parts.{Packs};
ghost use Rattle.fitted_sheet.specs.FittedSheet.{fitted_sheet, too_many};
ghost use Rattle.assembling.specs.Parts.{Source, SizesOf, OffsetsOf, TablesOf, sized, with_names_of};

use crate::cells::{with_cell_terms, with_sames};
use crate::codes::{with_code_symbols, with_code_terms, with_differs};
use layout::grow::{with_sort, with_total};
use layout::{Parsed, nothing};
use prelude::{MOST_SORTS, MOST_SYMBOLS, wide};

// The fitted sheet: each list behind those before it, the sum as total.
pub fn fitted_sheet(
    p: Parsed,
    sizes: [u8; MOST_SORTS],
    offsets: [usize; MOST_SYMBOLS + 1],
    sum: usize,
    tables: &[u8],
) -> Parsed
    requires { (t : Source p) × (SizesOf t (at sizes) × OffsetsOf t (at offsets) × TablesOf t tables.now × (sum ≡ sum_of t.structure t.sheet) × (too_many (fitted_sheet t.sheet t.structure) ≡ false)) }
    ensures { (t : Source p) → SizesOf t (at sizes) → OffsetsOf t (at offsets) → TablesOf t tables.now → sum ≡ sum_of t.structure t.sheet → result ≡ packed (fitted_sheet t.sheet t.structure) }
{
    let n = p.sorts;
    let old = p.symbols;
    let starts = starts_of(sizes, n);
    let fields = sized_fields(sizes, n);
    let bare = with_old_names(fields, p);
    let named = with_code_symbols(bare, sizes, n);
    let coded = with_code_terms(named, old, sum);
    let said = with_cell_terms(coded, p, sizes, starts);
    let apart = with_differs(said, sizes, starts, n);
    let same = with_sames(apart, p, starts, offsets, sum, tables);
    let total = sum as u8;
    with_total(same, total)
}

// The number of the expression of each field's first code: the sizes before it, summed.
fn starts_of(sizes: [u8; MOST_SORTS], n: usize) -> [u8; MOST_SORTS]
    requires { (n ≤ most_sorts) × (sum_to n (at sizes) < 256) }
    ensures { (s : ℕ) → s < n → at result s ≡ sum_to s (at sizes) }
{
    let mut starts = [0u8; MOST_SORTS];
    let mut sum: usize = 0;
    for s in 0..n {
        starts[s] = sum as u8;
        sum += wide(sizes[s]);
    }
    starts
}

// The fields, floor and ceiling of each at its size, and nothing else.
fn sized_fields(sizes: [u8; MOST_SORTS], n: usize) -> Parsed
    requires { n ≤ most_sorts }
    ensures { result ≡ packed (sized n (at sizes)) }
{
    let mut q = nothing();
    for size in &sizes[..n] {
        q = with_sort(q, *size, *size);
    }
    q
}

// The old names, in order.
fn with_old_names(q: Parsed, p: Parsed) -> Parsed
    ensures { (sh : Sheet) (n : ℕ) (size : ℕ → ℕ) → Packs sh p → q ≡ packed (sized n size) → result ≡ packed (with_names_of sh (sized n size)) }
{
    let symbols = p.symbols;
    let result = p.result;
    let param0 = p.param0;
    let param1 = p.param1;
    let mut out = q;
    out.symbols = symbols;
    out.result = result;
    out.param0 = param0;
    out.param1 = param1;
    out
}
