// Cause 14: whether the fitted sheet would pass a limit of kinds 2 to 5. The records are counted before any is made.
ghost use Rattle.std.specs.Prelude.{◌≡◌, ◌*◌, ◌≤◌, ◌<◌};
ghost use Rattle.prelude.specs.Lists.{at, sum_to};
ghost use Rattle.prelude.specs.Limits.{most_sorts};
ghost use Rattle.logic.specs.Order.{sum_of};
ghost use Rattle.tables.specs.Parts.{SmallOffsets};
ghost use Rattle.fitted_sheet.specs.FittedSheet.{fitted_sheet, too_many};
ghost use Rattle.assembling.specs.Parts.{Source, SizesOf, OffsetsOf, pairs};

use layout::Parsed;
use prelude::{MOST_LITERALS, MOST_SORTS, MOST_SYMBOLS, MOST_TERMS, wide};

// Whether the fitted sheet would have more names, expressions or statements than a sheet may.
pub fn are_passed(
    p: Parsed,
    sizes: [u8; MOST_SORTS],
    offsets: [usize; MOST_SYMBOLS + 1],
    sum: usize,
) -> bool
    requires { SmallOffsets offsets × ((t : Source p) × (OffsetsOf t (at offsets) × (sum ≡ sum_of t.structure t.sheet))) }
    ensures { (t : Source p) → SizesOf t (at sizes) → OffsetsOf t (at offsets) → sum ≡ sum_of t.structure t.sheet → result ≡ too_many (fitted_sheet t.sheet t.structure) }
{
    let sorts = p.sorts;
    let old = p.symbols;
    let cells = offsets[old] - sorts;
    let names = old + sum;
    if MOST_SYMBOLS < names {
        return true;
    }
    let expressions = sum + cells;
    if MOST_TERMS < expressions {
        return true;
    }
    let statements = all_pairs(sizes, sorts) + cells;
    MOST_LITERALS < statements
}

// How many pairs of codes the first n fields have.
fn all_pairs(sizes: [u8; MOST_SORTS], n: usize) -> usize
    requires { n ≤ most_sorts }
    ensures { (result ≡ sum_to n (λ s. pairs (at sizes s))) × (result ≤ 65536 * n) }
{
    let mut sum: usize = 0;
    for size in &sizes[..n] {
        sum += pairs_of(wide(*size));
    }
    sum
}

// How many pairs n codes have: each with those above it.
fn pairs_of(n: usize) -> usize
    requires { n < 256 }
    ensures { (result ≡ pairs n) × (result ≤ 65536) }
{
    let mut sum: usize = 0;
    for c in 0..n {
        sum += n - (c + 1);
    }
    sum
}
