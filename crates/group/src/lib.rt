// The question "group": which is the lowest-numbered term that is forced together with a given one?
#![tactic(auto)]

ghost use Rattle.std.specs.Prelude.{◌≡◌};
ghost use Rattle.group.specs.Grouping.{grouping};

use congruence::groups;
use prelude::refusal::{Cause, Refusal};
use prelude::wide;
use sheet::parse;

// The number of the group of the term e of a sheet.
pub fn group(sheet: &[u8], e: usize) -> Result<usize, Refusal>
    ensures { result ≡ grouping sheet.now e }
{
    // Kept: no `?`, in which the edit `wrong_place` would find no place to change.
    let p = match parse(sheet) {
        Ok(p) => p,
        Err(r) => return Err(r),
    };
    if p.terms <= e {
        return Err(Cause::NotThere.at(0));
    }
    let labels = groups(p);
    let number = wide(labels[e]);
    Ok(number)
}
