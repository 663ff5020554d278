// The causes 5 to 7 and 16 for which a fill is refused, tested against the sheet so far.
ghost use Rattle.std.specs.Prelude.{◌≡◌, [], ◌∷◌};
ghost use Rattle.prelude.specs.Causes.{tested};
ghost use Rattle.layout.specs.Layout.{fill, is_filled};
ghost use Rattle.layout.specs.Parts.{PartRead, later};

use crate::Parsed;
use prelude::refusal::Cause;
use prelude::{MOST_FILLS, wide};

// The causes 5 to 7 and 16 of a fill.
pub(crate) fn fill_fault(p: Parsed, b0: u8, b1: u8) -> Result<(), Cause>
    requires { PartRead p }
    ensures { (k : PartRead p) → result ≡ tested (later k.sheet fill (b0 ∷ b1 ∷ [])) }
{
    if MOST_FILLS <= p.fills {
        return Err(Cause::OneTooMany);
    }
    let f = wide(b0);
    let i = wide(b1);
    if p.symbols <= f {
        return Err(Cause::OutOfRange);
    }
    if p.terms <= i {
        return Err(Cause::OutOfRange);
    }
    let apart = p.sort[i] != p.result[f];
    let again = is_filled(p, b0);
    if apart {
        return Err(Cause::IllSorted);
    }
    if again {
        return Err(Cause::Refilled);
    }
    Ok(())
}

// An earlier fill is of the symbol.
fn is_filled(p: Parsed, symbol: u8) -> bool
    requires { PartRead p }
    ensures { (k : PartRead p) → result ≡ is_filled symbol k.sheet.fills }
{
    for k in 0..p.fills {
        if p.filled[k] == symbol {
            return true;
        }
    }
    false
}
