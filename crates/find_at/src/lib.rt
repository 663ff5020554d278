// The question "find_at": find at given sizes. What a call gives back and leaves in both buffers, and demand 3 of it among the candidates of
// these sizes (specs/, proofs/).
#![tactic(auto)]

ghost use Rattle.std.specs.Prelude.{ℕ, ◌≡◌, length};
ghost use Rattle.logic.specs.Sheet.{Sheet};
ghost use Rattle.sheet.specs.Verdict.{ReadFrom};
ghost use Rattle.tables.specs.Layout.{extent};
ghost use Rattle.tables.specs.Parts.{Packs, Limited};
ghost use Rattle.find_at.specs.Found.{ceilings, short};
ghost use Rattle.find_at.specs.FindAt.{candidate_sizes, finding_at, codes_after_at, tables_after_at, FindsAt};

use layout::Parsed;
use prelude::refusal::{Cause, Refusal};
use prelude::{MOST_CODES, MOST_SORTS, MOST_SYMBOLS};

// The most bytes of tables that can be asked for: the sizes, and each symbol's table with as many rows and columns as there can be.
pub const MOST_TABLES: usize = MOST_SORTS + MOST_SYMBOLS * MOST_CODES * MOST_CODES;

// Find at given sizes: of the answers to a sheet that have exactly these sizes, the first. It gives the sum of the sizes, or the refusal; the codes of
// the expressions stand in front of `codes` and the tables in front of `tables`, and every other byte of both is as it was.
pub fn find_at(
    sheet: &[u8],
    sizes: &[u8],
    codes: &mut [u8],
    tables: &mut [u8],
) -> Result<usize, Refusal>
    ensures result { result ≡ finding_at sheet.now sizes.now (length codes.old) (length tables.old) }
    ensures codes { codes.new ≡ codes_after_at sheet.now sizes.now codes.old tables.old }
    ensures tables { tables.new ≡ tables_after_at sheet.now sizes.now codes.old tables.old }
{
    // Kept: no `?`, in which the edit `place_lost` would find no place to change.
    match sheet::parse(sheet) {
        Ok(p) => find_at_parsed(p, sizes, codes, tables),
        Err(r) => Err(r),
    }
}

// Find at given sizes, of a sheet that has been parsed: cause 10, then cause 17, then cause 11, then the answer.
pub fn find_at_parsed(
    p: Parsed,
    sizes: &[u8],
    codes: &mut [u8],
    tables: &mut [u8],
) -> Result<usize, Refusal>
    requires { ReadFrom p }
    ensures { (q : ReadFrom p) → FindsAt q.bytes sizes.now codes.old tables.old codes.new tables.new result }
{
    if are_short(p, codes.len(), tables.len()) {
        return Err(Cause::ShortBuffer.at(0));
    }
    if !are_allowed(p, sizes) {
        return Err(Cause::WrongSizes.at(0));
    }
    let given = tables::sizes_of(p.sorts, sizes);
    let chosen = first_codes::first_codes(p, given).ok_or(Cause::NoAnswer.at(0))?;
    let sum = writing::write_answer(p, given, chosen, codes, tables);
    Ok(sum)
}

// Whether buffers of these lengths are too short (cause 10).
pub fn are_short(p: Parsed, codes: usize, tables: usize) -> bool
    requires { Limited p }
    ensures { (sh : Sheet) → Packs sh p → result ≡ short sh codes tables }
{
    if codes < p.terms {
        return true;
    }
    tables < longest(p)
}

// The length of the tables with every size at its ceiling.
fn longest(p: Parsed) -> usize
    requires { Limited p }
    ensures { (sh : Sheet) → Packs sh p → result ≡ extent sh (ceilings sh) }
{
    let highest = p.ceiling;
    let offsets = tables::extents(p, highest);
    let end = p.symbols;
    offsets[end]
}

// Whether a candidate may have these sizes (else cause 17).
fn are_allowed(p: Parsed, sizes: &[u8]) -> bool
    requires { Limited p }
    ensures { (sh : Sheet) → Packs sh p → result ≡ candidate_sizes sh sizes.now }
{
    let n = p.sorts;
    if sizes.len() != n {
        return false;
    }
    let given = tables::sizes_of(n, sizes);
    tables::in_bounds(p, given)
}
