// The codes that come first at given sizes.
#![tactic(auto)]

ghost use Rattle.std.specs.Prelude.{true, ◌≡◌, ◌<◌};
ghost use Rattle.prelude.specs.Limits.{undecided};
ghost use Rattle.prelude.specs.Lists.{at};
ghost use Rattle.logic.specs.Problem.{Extends};
ghost use Rattle.layout.specs.Packed.{view};
ghost use Rattle.consistency.specs.Searchable.{Searchable, SmallSizes};
ghost use Rattle.consistency.specs.Searchable.{Padded};
ghost use Rattle.solve.specs.Solved.{Model};
ghost use Rattle.first_codes.specs.FirstCodes.{FirstCodes};
ghost use Rattle.first_codes.specs.Parts.{LeastAt};

use layout::Parsed;
use prelude::{BYTE_VALUES, MOST_CODES, MOST_SORTS, MOST_TERMS, UNDECIDED, wide};
use solve::Choices;

// The consistent codes at these sizes that come first: term by term, each as low as the earlier ones leave it. None where there are none.
pub fn first_codes(p: Parsed, sizes: [u8; MOST_SORTS]) -> Option<[u8; BYTE_VALUES]>
    requires searchable { Searchable p }
    requires small_sizes { SmallSizes p (at sizes) }
    ensures { FirstCodes (view p) (at sizes) result }
{
    let mut decided = [UNDECIDED; BYTE_VALUES];
    let mut weights = [0u16; MOST_TERMS];
    let mut model = solve::solve(p, sizes, decided, &mut weights)?;
    for i in 0..p.terms {
        model = lower(p, sizes, decided, i, model, &mut weights);
        decided[i] = model[i];
    }
    Some(model)
}

// Whether a code is as decided, if it is.
fn as_decided(decided: u8, code: u8) -> bool
    ensures { result ≡ true → (decided ≡ undecided → ⊥) → code ≡ decided }
{
    decided == UNDECIDED || code == decided
}

// Whether codes keep to the decided ones.
fn extends(p: Parsed, decided: [u8; BYTE_VALUES], codes: [u8; BYTE_VALUES]) -> bool
    requires { Searchable p }
    ensures { result ≡ true → Extends (view p) (at decided) (at codes) }
{
    for i in 0..p.terms {
        if !as_decided(decided[i], codes[i]) {
            return false;
        }
    }
    true
}

// A code, where two of its sort change places.
fn other(here: bool, code: u8, a: u8, b: u8) -> u8 {
    if here && code == a {
        return b;
    }
    if here && code == b { a } else { code }
}

// The codes with two of a sort changing places.
fn exchanged(p: Parsed, codes: [u8; BYTE_VALUES], sort: u8, a: u8, b: u8) -> [u8; BYTE_VALUES]
    requires searchable { Searchable p }
    requires padded { Padded (view p) (at codes) }
    ensures { Padded (view p) (at result) }
{
    let mut next = codes;
    for i in 0..p.terms {
        next[i] = other(p.sort[i] == sort, next[i], a, b);
    }
    next
}

// A model that keeps to the decided codes: where the model has a code at the plan's term that nothing decided uses, the first such code
// takes its place.
fn renamed(
    p: Parsed,
    sizes: [u8; MOST_SORTS],
    decided: [u8; BYTE_VALUES],
    plan: &Choices,
    model: [u8; BYTE_VALUES],
) -> [u8; BYTE_VALUES]
    requires searchable { Searchable p }
    requires small_sizes { SmallSizes p (at sizes) }
    requires term_lt_terms { plan.now.term < p.terms }
    requires model { Model (view p) (at sizes) (at decided) (at model) }
    ensures { Model (view p) (at sizes) (at decided) (at result) }
{
    let fresh = plan.fresh;
    let high = wide(model[plan.term]);
    if high <= fresh || MOST_CODES <= high {
        return model;
    }
    if plan.used[high] {
        return model;
    }
    let next = exchanged(p, model, p.sort[plan.term], fresh as u8, high as u8);
    if !extends(p, decided, next) {
        return model;
    }
    if !consistency::consistent(p, sizes, next) {
        return model;
    }
    next
}

// The model with the least code at a term, of those that keep to the decided codes: each smaller code is tried, in ascending order.
fn lower(
    p: Parsed,
    sizes: [u8; MOST_SORTS],
    decided: [u8; BYTE_VALUES],
    term: usize,
    model: [u8; BYTE_VALUES],
    weights: &mut [u16; MOST_TERMS],
) -> [u8; BYTE_VALUES]
    requires searchable { Searchable p }
    requires small_sizes { SmallSizes p (at sizes) }
    requires term_lt_terms { (term < p.terms) × (at decided term ≡ undecided) }
    requires model { Model (view p) (at sizes) (at decided) (at model) }
    ensures { LeastAt (view p) (at sizes) (at decided) (at result) term }
{
    if model[term] == 0 {
        return model;
    }
    let Some(plan) = solve::plan(p, sizes, decided, term) else {
        return model;
    };
    let best = renamed(p, sizes, decided, &plan, model);
    let high = wide(best[term]);
    for v in 0..high {
        if plan.worth(v) {
            let next = solve::decide(decided, plan.term, v);
            if let Some(codes) = solve::solve(p, sizes, next, weights) {
                return codes;
            }
        }
    }
    best
}
