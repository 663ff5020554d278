// The questions "judge" and "table of a name" (the table of a symbol), on the bytes of a sheet and of tables.
#![tactic(auto)]

ghost use Rattle.std.specs.Prelude.{◌+◌, ◌≤◌, ◌≡◌, length};
ghost use Rattle.logic.specs.Sheet.{Sheet};
ghost use Rattle.tables.specs.Parts.{Packs, Limited};
ghost use Rattle.judge.specs.Judge.{judged, judgement, stretch, stretch_of, table_of, Spans};
ghost use Rattle.judge.specs.Parts.{Found};

use layout::Parsed;
use prelude::refusal::{Cause, Refusal};
use tables::Judgement;

// A stretch of the tables: where it starts and where it ends.
#[derive(Clone, Copy)]
pub struct Span {
    pub start: usize,
    pub end: usize,
}

// What shows a refusal (docs/FORMAT.md, "The questions": an empty stretch).
// Kept: `table_of` and `table_span` promise this stretch where the call is turned down, in place of an Option.
const NOWHERE: Span = Span { start: 0, end: 0 };

// Judge: fits, out of bounds, the number of the first broken statement, or why the call is turned down.
pub fn judge(sheet: &[u8], tables: &[u8]) -> Result<Judgement, Refusal>
    ensures { result ≡ judgement sheet.now tables.now }
{
    // Kept: no `?`, in which the four edits `fixed_..` would find no answer to change.
    match sheet::parse(sheet) {
        Ok(parsed) => judge_parsed(parsed, tables),
        Err(r) => Err(r),
    }
}

// The table of a symbol: the very stretch of the caller's tables, empty where the call is turned down.
pub fn table_of<'a>(sheet: &[u8], tables: &'a [u8], symbol: usize) -> &'a [u8]
    ensures bytes { result.now ≡ stretch tables.now (table_of sheet.now tables.now symbol) }
    ensures place { (result.ref_ptr.0 ≡ tables.entry.ref_ptr.0) × (result.ref_ptr.1 ≡ tables.entry.ref_ptr.1 + (table_of sheet.now tables.now symbol).start) }
{
    let span = table_span(sheet, tables, symbol);
    let start = span.start;
    let end = span.end;
    &tables[start..end]
}

// The table of a symbol, by its places in the tables; both are 0 where the call is turned down.
pub fn table_span(sheet: &[u8], tables: &[u8], symbol: usize) -> Span
    ensures { Spans result.start result.end (table_of sheet.now tables.now symbol) × (result.end ≤ length tables.now) }
{
    match sheet::parse(sheet) {
        Ok(p) => span_of(p, tables, symbol).unwrap_or(NOWHERE),
        Err(_) => NOWHERE,
    }
}

// Judge, of a parsed sheet: cause 12 first, then the bounds, then the statements.
fn judge_parsed(p: Parsed, t: &[u8]) -> Result<Judgement, Refusal>
    requires { Limited p }
    ensures { (sh : Sheet) → Packs sh p → result ≡ judged sh t.now }
{
    if !tables::well_laid(p, t) {
        return Err(Cause::IllLaid.at(0));
    }
    let n = p.sorts;
    let sizes = tables::sizes_of(n, t);
    if !tables::in_bounds(p, sizes) {
        return Ok(Judgement::OutOfBounds);
    }
    let offsets = tables::extents(p, sizes);
    let codes = tables::codes_of(p, sizes, offsets, t);
    Ok(tables::first_broken(p, codes))
}

// The table of a symbol, of a parsed sheet; none where the call is turned down.
fn span_of(p: Parsed, t: &[u8], symbol: usize) -> Option<Span>
    requires { Limited p }
    ensures { (sh : Sheet) → Packs sh p → Found result (stretch_of sh t.now symbol) }
{
    if p.symbols <= symbol {
        return None;
    }
    if !tables::well_laid(p, t) {
        return None;
    }
    let n = p.sorts;
    let sizes = tables::sizes_of(n, t);
    let offsets = tables::extents(p, sizes);
    Some(Span {
        start: offsets[symbol],
        end: offsets[symbol + 1],
    })
}
