// The search at given sizes: consistent codes that keep to some decided ones, or that there are none.
#![tactic(auto)]

ghost use Rattle.std.specs.Prelude.{IfSome, ◌≡◌, ◌<◌, ◌≤◌, set};
ghost use Rattle.prelude.specs.Limits.{most_codes, undecided};
ghost use Rattle.prelude.specs.Tests.{Decides};
ghost use Rattle.prelude.specs.Lists.{at};
ghost use Rattle.layout.specs.Packed.{view};
ghost use Rattle.consistency.specs.Searchable.{Searchable, SmallSizes};
ghost use Rattle.knowledge.specs.Knows.{Bit};
ghost use Rattle.propagate.specs.Propagated.{Knowing};
ghost use Rattle.solve.specs.Solved.{Solved, Worth, Branches, Planned};
ghost use Rattle.solve.specs.Parts.{NeverStruck, InUse, Fresh, Settles, Pending, Node};

use knowledge::{Known, NO_CODE_LEFT, single};
use layout::Parsed;
use prelude::{BYTE_VALUES, MOST_CODES, MOST_SORTS, MOST_TERMS, UNDECIDED, wide};
use propagate::Propagation;

// The weight of one failure: half of what one group that a term differs from counts.
const FAILURE: u16 = 256;

// Each failure takes this part off all earlier ones.
const FADING: u16 = 128;

// The weight past which a failure adds nothing.
const HEAVIEST: u16 = 65000;

// What a node of the search branches on: a term, and what says which of its codes are worth trying.
#[derive(Clone, Copy)]
pub struct Choices {
    pub term: usize,
    // the size of the term's sort
    pub size: usize,
    // the codes that the term cannot have: bit v for code v
    pub mask: u16,
    // the codes that decided terms of the sort have, and the first code that none has
    pub used: [bool; MOST_CODES],
    pub fresh: usize,
}

// One node of the search.
#[derive(Clone, Copy)]
enum Visit {
    // no consistent codes keep to the decided ones
    Nothing,
    // these codes do
    Found([u8; BYTE_VALUES]),
    Branch(Choices),
}

impl Choices {
    // Whether a code is worth trying.
    pub fn worth(&self, v: usize) -> bool
        requires { self.now.size ≤ most_codes }
        ensures { Decides result (Worth self.now v) }
    {
        if self.size <= v {
            return false;
        }
        if struck(self.mask, v) {
            return false;
        }
        if v <= self.fresh {
            return true;
        }
        self.used[v]
    }
}

// Decided codes with one more.
// Kept: a code that is not decided is the byte UNDECIDED and no Option: `propagate::propagate` takes these bytes, and `Extends` and `openings`
// of logic, under its theorems, speak of them.
pub fn decide(decided: [u8; BYTE_VALUES], term: usize, v: usize) -> [u8; BYTE_VALUES]
    requires { (term < 256) × (v < 256) }
    ensures { result ≡ set decided term v }
{
    let mut next = decided;
    next[term] = v as u8;
    next
}

// The codes of a given term that are worth trying; none where no consistent codes keep to the decided ones.
pub fn plan(
    p: Parsed,
    sizes: [u8; MOST_SORTS],
    decided: [u8; BYTE_VALUES],
    term: usize,
) -> Option<Choices>
    requires searchable { Searchable p }
    requires small_sizes { SmallSizes p (at sizes) }
    requires term_lt_terms { (term < p.terms) × (at decided term ≡ undecided) }
    ensures { Planned (view p) (at sizes) (at decided) term result }
{
    let k = propagate::begin(p);
    let Ok(o) = propagate::propagate(p, sizes, decided, &k) else {
        return None;
    };
    Some(branch(p, sizes, decided, &o.known.masks, term))
}

// Consistent codes at these sizes that keep to the decided ones; none where there are none. The weights say how often, and how lately,
// propagation failed in each group: they guide the search, which adds to them.
// Kept: a sheet and its sizes stay two arguments with two clauses: docs/DESIGN.md names this function to use.
pub fn solve(
    p: Parsed,
    sizes: [u8; MOST_SORTS],
    decided: [u8; BYTE_VALUES],
    weights: &mut [u16; MOST_TERMS],
) -> Option<[u8; BYTE_VALUES]>
    requires searchable { Searchable p }
    requires small_sizes { SmallSizes p (at sizes) }
    ensures { Solved (view p) (at sizes) (at decided) result }
{
    let k = propagate::begin(p);
    descend(p, sizes, decided, &k, weights)
}

// Whether a code is struck out.
fn struck(mask: u16, v: usize) -> bool
    requires { v < most_codes }
    ensures { Decides result (Bit mask v) }
{
    (mask >> v) % 2 == 1
}

// Which codes decided terms of a sort have.
fn codes_in_use(p: Parsed, decided: [u8; BYTE_VALUES], sort: u8) -> [bool; MOST_CODES]
    requires { Searchable p }
    ensures { InUse (view p) (at decided) sort result }
{
    let mut used = [false; MOST_CODES];
    for j in 0..p.terms {
        if p.sort[j] == sort {
            let v = wide(decided[j]);
            if v < MOST_CODES {
                used[v] = true;
            }
        }
    }
    used
}

// The first code below a size that is not in use, or the size.
fn fresh(used: [bool; MOST_CODES], size: usize) -> usize
    requires { size ≤ most_codes }
    ensures { Fresh used size result }
{
    used[..size].iter().position(|u| !*u).unwrap_or(size)
}

// The codes of all terms, where each is decided or has one code left; else a term of which neither is so.
fn settle(
    p: Parsed,
    decided: [u8; BYTE_VALUES],
    masks: &[u16; MOST_TERMS],
) -> Result<[u8; BYTE_VALUES], usize>
    requires { Searchable p }
    ensures { Settles (view p) (at decided) masks.now result }
{
    let mut codes = [0u8; BYTE_VALUES];
    for i in 0..p.terms {
        let d = decided[i];
        if d == UNDECIDED {
            let Some(v) = single(masks[i]) else {
                return Err(i);
            };
            codes[i] = v as u8;
        } else {
            codes[i] = d;
        }
    }
    Ok(codes)
}

// ---- Which term to branch on: no promise rests on these.

// The codes that decided terms have in each sort: bit v for code v.
fn used_masks(p: Parsed, decided: [u8; BYTE_VALUES]) -> [u16; MOST_SORTS]
    requires { Searchable p }
{
    let mut masks = [0u16; MOST_SORTS];
    for i in 0..p.terms {
        let s = wide(p.sort[i]);
        let v = wide(decided[i]);
        if s < MOST_SORTS && v < MOST_CODES {
            masks[s] |= 1u16 << v;
        }
    }
    masks
}

fn mask_of(masks: &[u16; MOST_SORTS], sort: u8) -> u16 {
    let s = wide(sort);
    if s < MOST_SORTS { masks[s] } else { 0 }
}

// How good it is to branch on a term: its weight and how much it is tied to others, per code to try; of the codes not in use one alone is
// tried. 0 where it has at most one code left.
fn score(mask: u16, used: u16, degree: u16, weight: u16) -> u32 {
    let left = mask ^ NO_CODE_LEFT;
    if left.count_ones() < 2 {
        return 0;
    }
    let old = (left & used).count_ones();
    if 16 < old {
        return 1;
    }
    let rest = 2 * (weight as u32) + ((degree as u32) + 2) * (FAILURE as u32);
    if left & (used ^ NO_CODE_LEFT) == 0 && 0 < old {
        return rest / old;
    }
    rest / (old + 1)
}

// The term with the highest score among those that stand for their group; none where all are settled.
fn choose(
    p: Parsed,
    decided: [u8; BYTE_VALUES],
    o: &Propagation,
    weights: &[u16; MOST_TERMS],
) -> Option<usize>
    requires { Searchable p }
    ensures { IfSome result (Pending (view p) (at decided)) }
{
    let used = used_masks(p, decided);
    let mut best: Option<usize> = None;
    let mut high: u32 = 0;
    for i in 0..p.terms {
        if decided[i] == UNDECIDED && wide(o.known.labels[i]) == i {
            let mask = o.known.masks[i];
            let n = score(mask, mask_of(&used, p.sort[i]), o.degree[i], weights[i]);
            if high < n {
                best = Some(i);
                high = n;
            }
        }
    }
    best
}

// Takes a share off each weight.
fn fade(weights: &mut [u16; MOST_TERMS]) {
    for w in weights.iter_mut() {
        *w -= *w / FADING;
    }
}

// Counts one more failure of a group; what failed lately counts most.
fn count_failure(weights: &mut [u16; MOST_TERMS], group: u8) {
    fade(weights);
    let g = wide(group);
    if g < MOST_TERMS && weights[g] < HEAVIEST {
        weights[g] += FAILURE;
    }
}

// ---- One node, and the search.

// The plan for a term.
fn branch(
    p: Parsed,
    sizes: [u8; MOST_SORTS],
    decided: [u8; BYTE_VALUES],
    masks: &[u16; MOST_TERMS],
    term: usize,
) -> Choices
    requires searchable { Searchable p }
    requires small_sizes { SmallSizes p (at sizes) }
    requires never_struck { NeverStruck (view p) (at sizes) (at decided) masks.now }
    requires pending { Pending (view p) (at decided) term }
    ensures term { result.term ≡ term }
    ensures branches { Branches (view p) (at sizes) (at decided) result }
{
    let sort = p.sort[term];
    let s = wide(sort);
    let size = wide(sizes[s]);
    let used = codes_in_use(p, decided, sort);
    Choices {
        term,
        size,
        mask: masks[term],
        used,
        fresh: fresh(used, size),
    }
}

// One node, from what propagation found out: a term to branch on, or, where all are settled, the test of their codes.
fn node(
    p: Parsed,
    sizes: [u8; MOST_SORTS],
    decided: [u8; BYTE_VALUES],
    o: &Propagation,
    weights: &[u16; MOST_TERMS],
) -> Visit
    requires searchable { Searchable p }
    requires small_sizes { SmallSizes p (at sizes) }
    requires knowing { Knowing (view p) (at sizes) (at decided) o.now.known }
    ensures { Node (view p) (at sizes) (at decided) result }
{
    let masks = &o.known.masks;
    if let Some(term) = choose(p, decided, o, weights) {
        return Visit::Branch(branch(p, sizes, decided, masks, term));
    }
    match settle(p, decided, masks) {
        Err(term) => Visit::Branch(branch(p, sizes, decided, masks, term)),
        Ok(codes) => {
            if consistency::consistent(p, sizes, codes) {
                Visit::Found(codes)
            } else {
                Visit::Nothing
            }
        }
    }
}

// Consistent codes at these sizes that keep to the decided ones, or that there are none; from what is known already.
fn descend(
    p: Parsed,
    sizes: [u8; MOST_SORTS],
    decided: [u8; BYTE_VALUES],
    known: &Known,
    weights: &mut [u16; MOST_TERMS],
) -> Option<[u8; BYTE_VALUES]>
    requires searchable { Searchable p }
    requires small_sizes { SmallSizes p (at sizes) }
    requires knowing { Knowing (view p) (at sizes) (at decided) known.now }
    ensures { Solved (view p) (at sizes) (at decided) result }
{
    let o = match propagate::propagate(p, sizes, decided, known) {
        Ok(o) => o,
        Err(conflict) => {
            count_failure(weights, conflict.group);
            return None;
        }
    };
    match node(p, sizes, decided, &o, weights) {
        Visit::Nothing => None,
        Visit::Found(codes) => Some(codes),
        Visit::Branch(plan) => {
            for v in 0..plan.size {
                if plan.worth(v) {
                    let next = decide(decided, plan.term, v);
                    let found = descend(p, sizes, next, &o.known, weights);
                    if found.is_some() {
                        return found;
                    }
                }
            }
            None
        }
    }
}
