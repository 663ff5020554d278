// The question "fitted": the tables that find gives for a sheet, written as a sheet of their own.
#![tactic(auto)]

ghost use Rattle.std.specs.Prelude.{◌≡◌, ◌≤◌, length};
ghost use Rattle.prelude.specs.Limits.{most_written_bytes};
ghost use Rattle.sheet.specs.Verdict.{ReadFrom};
ghost use Rattle.fitted.specs.Filing.{fitting, buffer_after, Files};
ghost use Rattle.fitted.specs.Parts.{Answered, FilesAnswer};

use find_at::MOST_TABLES;
use layout::Parsed;
use prelude::refusal::{Cause, Refusal};
use prelude::{MOST_TERMS, MOST_WRITTEN_BYTES};

// Fitted: the tables of find's answer as a sheet. It gives the length of the new sheet, or the refusal; the sheet stands in front of `out`, and every
// other byte is as it was.
pub fn fitted(sheet: &[u8], out: &mut [u8]) -> Result<usize, Refusal>
    ensures result { result ≡ fitting sheet.now (length out.old) }
    ensures buffer { out.new ≡ buffer_after sheet.now out.old }
{
    let p = sheet::parse(sheet)?;
    if out.len() < MOST_WRITTEN_BYTES {
        return Err(Cause::ShortBuffer.at(0));
    }
    file_answer(p, out)
}

// Finds, and files what was found: cause 11, then cause 14, then the sheet.
fn file_answer(p: Parsed, out: &mut [u8]) -> Result<usize, Refusal>
    requires { ReadFrom p × (most_written_bytes ≤ length out.old) }
    ensures { (q : ReadFrom p) → Files q.bytes out.old out.new result }
{
    let mut codes = [0u8; MOST_TERMS];
    let mut tables = [0u8; MOST_TABLES];
    let sum = finder::in_turn(p, &mut codes, &mut tables)?;
    file_tables(p, sum, &tables, out)
}

// Files the tables of an answer, which stand in front of `tables`.
fn file_tables(p: Parsed, sum: usize, tables: &[u8], out: &mut [u8]) -> Result<usize, Refusal>
    requires { Answered p sum tables.now × (most_written_bytes ≤ length out.old) }
    ensures { (a : Answered p sum tables.now) → FilesAnswer a.sheet a.entry out.old out.new result }
{
    let sizes = tables::sizes_of(p.sorts, tables);
    let offsets = tables::extents(p, sizes);
    if assembling::limits::are_passed(p, sizes, offsets, sum) {
        return Err(Cause::PastLimit.at(0));
    }
    let new = assembling::fitted_sheet(p, sizes, offsets, sum, tables);
    let length = encoder::write_sheet(new, out);
    Ok(length)
}
