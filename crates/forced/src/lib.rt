// The question "forced": have two terms one code wherever the same statements of a sheet hold? Their groups have one number then.
#![tactic(auto)]

ghost use Rattle.std.specs.Prelude.{◌≡◌};
ghost use Rattle.forced.specs.Forcing.{forcing};

use congruence::groups;
use prelude::refusal::{Cause, Refusal};
use sheet::parse;

// Whether the terms a and b of a sheet are forced together.
pub fn forced(sheet: &[u8], a: usize, b: usize) -> Result<bool, Refusal>
    ensures { result ≡ forcing sheet.now a b }
{
    // Kept: no `?`, in which the edit `wrong_place` would find no place to change.
    let p = match parse(sheet) {
        Ok(p) => p,
        Err(r) => return Err(r),
    };
    let terms = p.terms;
    if terms <= a {
        return Err(Cause::NotThere.at(0));
    }
    if terms <= b {
        return Err(Cause::NotThere.at(0));
    }
    if p.sort[a] != p.sort[b] {
        return Err(Cause::NotThere.at(0));
    }
    let labels = groups(p);
    let together = labels[a] == labels[b];
    Ok(together)
}
