// Adding a good record to the sheet so far: each array takes one entry more at the count.
ghost use Rattle.std.specs.Prelude.{◌≡◌, Bool, ◌+◌, ◌<◌, length, drop};
ghost use Rattle.prelude.specs.Limits.{most_sorts, most_symbols, most_terms, most_literals, most_fills};
ghost use Rattle.logic.specs.Sheet.{Sheet};
ghost use Rattle.layout.specs.Layout.{kind_of, add_bound, add_symbol, add_term, add_literal, add_fill, with_total, add};
ghost use Rattle.layout.specs.Packed.{packed, bit};
ghost use Rattle.layout.specs.Parts.{payload_bytes, PartRead, Good};

use crate::kinds::Kind;
use crate::{Parsed, Payload};
use prelude::wide;

// The sheet with a good record more.
pub fn added(p: Parsed, kind: usize, q: Payload) -> Parsed
    requires part_read { PartRead p }
    requires good { (k : PartRead p) → Good k.sheet kind q }
    ensures { (k : PartRead p) → result ≡ packed (add k.sheet (kind_of kind) (payload_bytes q)) }
{
    let Ok(named) = Kind::try_from(kind) else {
        return p;
    };
    match named {
        Kind::Sort => with_sort(p, q.b0, q.b1),
        Kind::Symbol => with_symbol(p, q),
        Kind::Term => with_term(p, q),
        Kind::Same => with_literal(p, 1, q.b0, q.b1),
        Kind::Differ => with_literal(p, 0, q.b0, q.b1),
        Kind::Total => with_total(p, q.b0),
        Kind::Fill => with_fill(p, q.b0, q.b1),
    }
}

// A sort more: its floor and its ceiling.
pub fn with_sort(p: Parsed, b0: u8, b1: u8) -> Parsed
    requires { p.sorts < most_sorts }
    ensures { (sh : Sheet) → p ≡ packed sh → result ≡ packed (add_bound sh (record { floor = b0; ceiling = b1 })) }
{
    let mut out = p;
    let n = p.sorts;
    out.floor[n] = b0;
    out.ceiling[n] = b1;
    out.sorts = n + 1;
    out
}

// A symbol more. The terms' sorts stay as they are: there is no term yet.
pub fn with_symbol(p: Parsed, q: Payload) -> Parsed
    requires { p.symbols < most_symbols }
    ensures { (sh : Sheet) → p ≡ packed sh → length sh.terms ≡ 0 → result ≡ packed (add_symbol sh (record { result = q.b0; params = drop 1 (payload_bytes q) })) }
{
    let mut out = p;
    let n = p.symbols;
    out.result[n] = q.b0;
    out.param0[n] = q.b1;
    out.param1[n] = q.b2;
    out.symbols = n + 1;
    out
}

// A term more, of the sort that its symbol gives.
pub fn with_term(p: Parsed, q: Payload) -> Parsed
    requires { (p.terms < most_terms) × (q.b0 < most_symbols) }
    ensures { (sh : Sheet) → p ≡ packed sh → q.b0 < length sh.symbols → result ≡ packed (add_term sh (record { symbol = q.b0; args = drop 1 (payload_bytes q) })) }
{
    let mut out = p;
    let n = p.terms;
    let f = wide(q.b0);
    out.symbol[n] = q.b0;
    out.arg0[n] = q.b1;
    out.arg1[n] = q.b2;
    out.sort[n] = p.result[f];
    out.terms = n + 1;
    out
}

// A literal more: `equal` is 1 for same and 0 for differ.
pub fn with_literal(p: Parsed, equal: u8, b0: u8, b1: u8) -> Parsed
    requires { p.literals < most_literals }
    ensures { (sh : Sheet) (e : Bool) → p ≡ packed sh → equal ≡ bit e → result ≡ packed (add_literal sh (record { equal = e; left = b0; right = b1 })) }
{
    let mut out = p;
    let n = p.literals;
    out.equal[n] = equal;
    out.left[n] = b0;
    out.right[n] = b1;
    out.literals = n + 1;
    out
}

// A fill more: the symbol and the term.
fn with_fill(p: Parsed, b0: u8, b1: u8) -> Parsed
    requires { p.fills < most_fills }
    ensures { (sh : Sheet) → p ≡ packed sh → result ≡ packed (add_fill sh (record { symbol = b0; term = b1 })) }
{
    let mut out = p;
    let n = p.fills;
    out.filled[n] = b0;
    out.filler[n] = b1;
    out.fills = n + 1;
    out
}

// The total.
pub fn with_total(p: Parsed, b0: u8) -> Parsed
    ensures { (sh : Sheet) → p ≡ packed sh → result ≡ packed (with_total sh b0) }
{
    let mut out = p;
    out.total = wide(b0);
    out
}
