// The question "find": what a call gives back and leaves in both buffers, and demand 3 of it (specs/, proofs/). It asks sizes and find_at in turn.
#![tactic(auto)]

ghost use Rattle.std.specs.Prelude.{◌≡◌, length};
ghost use Rattle.sheet.specs.Verdict.{ReadFrom};
ghost use Rattle.finder.specs.Find.{finding, codes_after, tables_after, Finds};

use layout::Parsed;
use prelude::MOST_SORTS;
use prelude::refusal::{Cause, Refusal};

// Find: the first answer to a sheet. It gives the sum of the sizes, or the refusal; the codes of the expressions stand in front of `codes` and
// the tables in front of `tables`, and every other byte of both is as it was.
pub fn find(sheet: &[u8], codes: &mut [u8], tables: &mut [u8]) -> Result<usize, Refusal>
    ensures result { result ≡ finding sheet.now (length codes.old) (length tables.old) }
    ensures codes { codes.new ≡ codes_after sheet.now codes.old tables.old }
    ensures tables { tables.new ≡ tables_after sheet.now codes.old tables.old }
{
    // Kept: no `?`, in which the edit `eleven_before_looking` would find no answer to change.
    match sheet::parse(sheet) {
        Ok(p) => in_turn(p, codes, tables),
        Err(unread) => Err(unread),
    }
}

// Find, of a sheet that has been parsed: cause 10, then the two questions in turn, sizes and find_at at these sizes.
pub fn in_turn(p: Parsed, codes: &mut [u8], tables: &mut [u8]) -> Result<usize, Refusal>
    requires { ReadFrom p }
    ensures { (q : ReadFrom p) → Finds q.bytes codes.old tables.old codes.new tables.new result }
{
    if find_at::are_short(p, codes.len(), tables.len()) {
        return Err(Cause::ShortBuffer.at(0));
    }
    let mut sizes = [0u8; MOST_SORTS];
    // Kept: no `?`, in which the edit `seventeen_for_eleven` would find no cause to change.
    match sizes::sizes_parsed(p, &mut sizes) {
        Ok(_) => {
            let n = p.sorts;
            find_at::find_at_parsed(p, &sizes[..n], codes, tables)
        }
        Err(r) => Err(r),
    }
}
