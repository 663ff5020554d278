// The question "sizes": the sizes of find's answer, without its codes and tables.
#![tactic(auto)]

ghost use Rattle.std.specs.Prelude.{◌≤◌, ◌≡◌, length};
ghost use Rattle.prelude.specs.Limits.{most_sorts};
ghost use Rattle.prelude.specs.Lists.{at, sum_to, firsts, fronted};
ghost use Rattle.sheet.specs.Verdict.{ReadFrom};
ghost use Rattle.sizes.specs.Sizing.{sizing, sizes_after, Sizes};

use layout::Parsed;
use prelude::MOST_SORTS;
use prelude::refusal::{Cause, Refusal};

// Sizes: those of the first answer to a sheet. It gives their sum, or the refusal; the sizes stand in front of `out`, one byte per
// field, and every other byte is as it was.
pub fn sizes(sheet: &[u8], out: &mut [u8]) -> Result<usize, Refusal>
    ensures result { result ≡ sizing sheet.now (length out.old) }
    ensures buffer { out.new ≡ sizes_after sheet.now out.old }
{
    // Kept: no `?`, in which the edit `place_lost` would find no place to change.
    match sheet::parse(sheet) {
        Ok(p) => sizes_parsed(p, out),
        Err(r) => Err(r),
    }
}

// Sizes, of a sheet that has been parsed: cause 10, then cause 11, then the sizes.
pub fn sizes_parsed(p: Parsed, out: &mut [u8]) -> Result<usize, Refusal>
    requires { ReadFrom p }
    ensures { (q : ReadFrom p) → Sizes q.bytes out.old out.new result }
{
    let n = p.sorts;
    if out.len() < n {
        return Err(Cause::ShortBuffer.at(0));
    }
    let sizes = least_sizes::least_sizes(p).ok_or(Cause::NoAnswer.at(0))?;
    let sum = write_sizes(sizes, n, out);
    Ok(sum)
}

// Writes the first n sizes in front of the buffer, and gives their sum.
fn write_sizes(sizes: [u8; MOST_SORTS], n: usize, out: &mut [u8]) -> usize
    requires { (n ≤ most_sorts) × (n ≤ length out.old) }
    ensures sum { result ≡ sum_to n (at sizes) }
    ensures buffer { out.new ≡ fronted (firsts n (at sizes)) out.old }
{
    prelude::copy(&sizes[..n], out);
    tables::sum_of(sizes, n)
}
