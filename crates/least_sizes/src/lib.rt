// The least sizes with consistent codes: smallest sum, then first place by place.
#![tactic(auto)]

ghost use Rattle.std.specs.Prelude.{◌≡◌, ◌+◌, ◌≤◌, ◌<◌, set};
ghost use Rattle.prelude.specs.Limits.{most_sorts, most_codes};
ghost use Rattle.prelude.specs.Lists.{at};
ghost use Rattle.layout.specs.Packed.{view};
ghost use Rattle.consistency.specs.Searchable.{Searchable, SmallSizes};
ghost use Rattle.least_sizes.specs.LeastSizes.{LeastSizes};
ghost use Rattle.least_sizes.specs.Parts.{Probed, Barren, Edge, Compared, Greatest, GreatestSizes, Raised, Region, Candidate, Hunted, Looked, Inside, Corner};

use layout::Parsed;
use prelude::{BYTE_VALUES, MOST_SORTS, MOST_TERMS, UNDECIDED, wide};
use tables::sum_of;

// What a look at the lowest sizes of a region finds.
#[derive(Clone, Copy)]
enum Looking {
    // the best sizes, once those of the region have been taken into account
    Done(Option<[u8; MOST_SORTS]>),
    // a barren box that the lowest sizes lie in: up to these sizes
    Boxed([u8; MOST_SORTS]),
}

// The least sizes with consistent codes that the sheet allows; none where there are none.
pub fn least_sizes(p: Parsed) -> Option<[u8; MOST_SORTS]>
    requires { Searchable p }
    ensures { LeastSizes (view p) result }
{
    let high = greatest_sizes(p)?;
    let mut weights = [0u16; MOST_TERMS];
    if !probe(p, high, &mut weights) {
        return None;
    }
    let low = raise(p, high, &mut weights);
    hunt(&p, low, high, p.total, None, &mut weights)
}

// Whether these sizes have consistent codes.
fn probe(p: Parsed, sizes: [u8; MOST_SORTS], weights: &mut [u16; MOST_TERMS]) -> bool
    requires searchable { Searchable p }
    requires small_sizes { SmallSizes p (at sizes) }
    ensures { Probed (view p) result (at sizes) }
{
    solve::solve(p, sizes, [UNDECIDED; BYTE_VALUES], weights).is_some()
}

// The sizes with one of them set.
fn with_size(sizes: [u8; MOST_SORTS], sort: usize, v: usize) -> [u8; MOST_SORTS]
    requires { (sort < most_sorts) × (v < 256) }
    ensures { result ≡ set sizes sort v }
{
    let mut next = sizes;
    next[sort] = v as u8;
    next
}

// A guess, moved into a range that is not empty.
fn moved_inside(a: usize, b: usize, guess: usize) -> usize
    requires { a < b }
    ensures { Inside a b result }
{
    guess.clamp(a, b - 1)
}

// The least size of a sort from lo to hi at which the base, with that size, may have consistent codes; a first guess is tried first,
// then the middle of what is left.
fn edge(
    p: Parsed,
    base: [u8; MOST_SORTS],
    sort: usize,
    lo: usize,
    hi: usize,
    first: usize,
    weights: &mut [u16; MOST_TERMS],
) -> usize
    requires searchable { Searchable p }
    requires small_sizes { SmallSizes p (at base) }
    requires sort_lt_sorts { (sort < p.sorts) × (lo ≤ hi) × (hi ≤ most_codes + 1) }
    ensures { Edge (view p) base sort lo hi result }
{
    let mut a = lo;
    let mut b = hi;
    let mut guess = first;
    // Kept: a search by halves, no index is counted.
    while a < b {
        let m = moved_inside(a, b, guess);
        let sizes = with_size(base, sort, m);
        if probe(p, sizes, weights) {
            b = m;
        } else {
            a = m + 1;
        }
        guess = (a + b) / 2;
    }
    a
}

// Which of two size lists comes no later: true for the first.
fn ahead(a: [u8; MOST_SORTS], b: [u8; MOST_SORTS], n: usize) -> bool
    requires { n ≤ most_sorts }
    ensures { Compared n result (at a) (at b) }
{
    let x = sum_of(a, n);
    let y = sum_of(b, n);
    if x < y {
        return true;
    }
    if y < x {
        return false;
    }
    for s in 0..n {
        if a[s] < b[s] {
            return true;
        }
        if b[s] < a[s] {
            return false;
        }
    }
    true
}

// The greatest sizes that ceilings, and the total with the other floors, leave; none where a floor is too high.
fn greatest_sizes(p: Parsed) -> Option<[u8; MOST_SORTS]>
    requires { Searchable p }
    ensures { GreatestSizes (view p) result }
{
    let mut high = p.ceiling;
    let least = sum_of(p.floor, p.sorts);
    if p.total < least {
        return None;
    }
    let slack = p.total - least;
    for s in 0..p.sorts {
        let f = wide(p.floor[s]);
        let c = wide(p.ceiling[s]);
        if c < f {
            return None;
        }
        if f + slack < c {
            high[s] = (f + slack) as u8;
        }
    }
    Some(high)
}

// Floors raised, one sort at a time, to the least size that the greatest sizes of the others leave.
fn raise(p: Parsed, high: [u8; MOST_SORTS], weights: &mut [u16; MOST_TERMS]) -> [u8; MOST_SORTS]
    requires searchable { Searchable p }
    requires greatest { Greatest (view p) (at high) }
    ensures { Raised (view p) (at result) (at high) }
{
    let mut low = p.floor;
    for s in 0..p.sorts {
        let lo = wide(low[s]);
        let hi = wide(high[s]);
        low[s] = edge(p, high, s, lo, hi, lo, weights) as u8;
    }
    low
}

// A box around barren sizes: each in turn as great as it can be while nothing consistent comes in.
fn widen(
    p: Parsed,
    low: [u8; MOST_SORTS],
    high: [u8; MOST_SORTS],
    weights: &mut [u16; MOST_TERMS],
) -> [u8; MOST_SORTS]
    requires searchable { Searchable p }
    requires region { Region (view p) (at low) (at high) }
    requires barren { Barren (view p) (at low) }
    ensures { Corner (view p) (at low) (at result) }
{
    let mut corner = low;
    for s in 0..p.sorts {
        let lo = wide(corner[s]) + 1;
        let hi = wide(high[s]) + 1;
        if lo < hi {
            let v = edge(p, corner, s, lo, hi, hi, weights);
            if lo < v {
                corner[s] = (v - 1) as u8;
            }
        }
    }
    corner
}

// A look at the lowest sizes of a region: nothing in the region comes before the best so far, or they are the best, or a box that
// they lie in is barren.
fn look(
    p: &Parsed,
    low: [u8; MOST_SORTS],
    high: [u8; MOST_SORTS],
    bound: usize,
    best: Option<[u8; MOST_SORTS]>,
    weights: &mut [u16; MOST_TERMS],
) -> Looking
    requires searchable { Searchable p.now }
    requires region { Region (view p.now) (at low) (at high) }
    requires bound_le_total { bound ≤ p.now.total }
    requires contender { Candidate (view p.now) bound best }
    ensures { Looked (view p.now) (at low) (at high) bound best result }
{
    if bound < sum_of(low, p.sorts) {
        return Looking::Done(best);
    }
    if let Some(sizes) = best {
        if ahead(sizes, low, p.sorts) {
            return Looking::Done(best);
        }
    }
    if probe(*p, low, weights) {
        return Looking::Done(Some(low));
    }
    Looking::Boxed(widen(*p, low, high, weights))
}

// The best sizes, once those of a region have been taken into account. A barren box splits the region: sort by sort, the sizes that
// leave the box in that sort and not in an earlier one. The sheet is lent, here and to `look`: a level of this recursion holds no copy of it.
fn hunt(
    p: &Parsed,
    low: [u8; MOST_SORTS],
    high: [u8; MOST_SORTS],
    bound: usize,
    best: Option<[u8; MOST_SORTS]>,
    weights: &mut [u16; MOST_TERMS],
) -> Option<[u8; MOST_SORTS]>
    requires searchable { Searchable p.now }
    requires region { Region (view p.now) (at low) (at high) }
    requires bound_le_total { bound ≤ p.now.total }
    requires contender { Candidate (view p.now) bound best }
    ensures { Hunted (view p.now) (at low) (at high) bound best result }
{
    let corner = match look(p, low, high, bound, best, weights) {
        Looking::Done(after) => return after,
        Looking::Boxed(corner) => corner,
    };
    let mut after = best;
    let mut up = high;
    for s in 0..p.sorts {
        let b = wide(corner[s]);
        let u = wide(up[s]);
        if b < u {
            let down = with_size(low, s, b + 1);
            after = hunt(p, down, up, bound, after, weights);
            up[s] = b as u8;
        }
    }
    after
}
