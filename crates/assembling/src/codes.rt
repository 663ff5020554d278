// What the fitted sheet has for each code: a name without arguments, its expression, and that it differs from the codes above it.
ghost use Rattle.std.specs.Prelude.{◌≡◌, [], ◌∷◌, ℕ, ◌+◌, ◌≤◌, ◌<◌};
ghost use Rattle.prelude.specs.Lists.{at, sum_to, collect};
ghost use Rattle.prelude.specs.Limits.{most_sorts, most_symbols, most_terms, most_literals};
ghost use Rattle.layout.specs.Packed.{packed};
ghost use Rattle.fitted_sheet.specs.FittedSheet.{code_symbol};
ghost use Rattle.assembling.specs.Parts.{Building, bare_term, differs_above, differs_of, pairs, more_symbols, more_terms, more_literals};

use layout::grow::{with_literal, with_symbol, with_term};
use layout::{Parsed, Payload};
use prelude::{MISSING, MOST_SORTS, wide};

// A name for each code of the first n fields, by field and then code.
// Kept: a function for each list, here and in `cells`, and not one over a closure: each says which records stand behind those that were there.
pub(crate) fn with_code_symbols(q: Parsed, sizes: [u8; MOST_SORTS], n: usize) -> Parsed
    requires { Building q × (q.terms ≡ 0) × (n ≤ most_sorts) × (q.symbols + sum_to n (at sizes) ≤ most_symbols) }
    ensures { (b : Building q) → result ≡ packed (more_symbols b.sheet (collect n (λ s. collect (at sizes s) (λ c. code_symbol s ∷ [])))) }
{
    let mut out = q;
    for (s, size) in sizes[..n].iter().enumerate() {
        out = with_symbols_of(out, s, wide(*size));
    }
    out
}

// A name for each of so many codes of field s.
fn with_symbols_of(q: Parsed, s: usize, size: usize) -> Parsed
    requires { Building q × (q.terms ≡ 0) × (s < 256) × (q.symbols + size ≤ most_symbols) }
    ensures { (b : Building q) → result ≡ packed (more_symbols b.sheet (collect size (λ c. code_symbol s ∷ []))) }
{
    let name = Payload {
        len: 1,
        b0: s as u8,
        b1: MISSING,
        b2: MISSING,
    };
    let mut out = q;
    for c in 0..size {
        out = with_symbol(out, name);
    }
    out
}

// The expressions of the n names from the first on.
pub(crate) fn with_code_terms(q: Parsed, first: usize, n: usize) -> Parsed
    requires { Building q × (first + n ≤ q.symbols) × (q.symbols ≤ most_symbols) × (q.terms + n ≤ most_terms) }
    ensures { (b : Building q) → result ≡ packed (more_terms b.sheet (collect n (λ c. bare_term (first + c) ∷ []))) }
{
    let mut out = q;
    for c in 0..n {
        let term = Payload {
            len: 1,
            b0: (first + c) as u8,
            b1: MISSING,
            b2: MISSING,
        };
        out = with_term(out, term);
    }
    out
}

// Differ for each pair of codes of one of the first n fields.
pub(crate) fn with_differs(
    q: Parsed,
    sizes: [u8; MOST_SORTS],
    starts: [u8; MOST_SORTS],
    n: usize,
) -> Parsed
    requires { Building q × (n ≤ most_sorts) × (q.literals + sum_to n (λ s. pairs (at sizes s)) ≤ most_literals) × ((s : ℕ) → s < n → at starts s + at sizes s < 256) }
    ensures { (b : Building q) → result ≡ packed (more_literals b.sheet (collect n (λ s. differs_of (at starts s) (at sizes s)))) }
{
    let mut out = q;
    for s in 0..n {
        let start = wide(starts[s]);
        let size = wide(sizes[s]);
        out = with_differs_of(out, start, size);
    }
    out
}

// Differ for each pair of codes of one field, whose first code has the expression `start`.
fn with_differs_of(q: Parsed, start: usize, size: usize) -> Parsed
    requires { Building q × (start + size < 256) × (q.literals + pairs size ≤ most_literals) }
    ensures { (b : Building q) → result ≡ packed (more_literals b.sheet (differs_of start size)) }
{
    let mut out = q;
    for c in 0..size {
        let many = size - (c + 1);
        out = with_differs_above(out, start + c, many);
    }
    out
}

// Differ for one expression and each of so many behind it.
fn with_differs_above(q: Parsed, first: usize, many: usize) -> Parsed
    requires { Building q × (first + many < 256) × (q.literals + many ≤ most_literals) }
    ensures { (b : Building q) → result ≡ packed (more_literals b.sheet (differs_above first many)) }
{
    let left = first as u8;
    let mut out = q;
    for k in 0..many {
        let right = (first + (k + 1)) as u8;
        out = with_literal(out, 0, left, right);
    }
    out
}
