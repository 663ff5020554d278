// Propagation: what follows for every consistent extension of some decided codes. It starts from what is known already, at first from the
// literals alone; the sizes and the decided codes come in, and the rules run until they find nothing new or a conflict shows.
#![tactic(auto)]

ghost use Rattle.std.specs.Prelude.{◌≤◌, ◌<◌};
ghost use Rattle.prelude.specs.Lists.{at};
ghost use Rattle.knowledge.specs.Knows.{Knows, Kept};
ghost use Rattle.rules.specs.Reasons.{Lawful};
ghost use Rattle.layout.specs.Packed.{view};
ghost use Rattle.propagate.specs.Propagated.{Begun, FitMask, Knowing, Propagated};
ghost use Rattle.propagate.specs.Parts.{Allowed};

use knowledge::{HALF_BITS, Known, MARK_HALVES, Terms};
use layout::Parsed;
use pigeonhole::strike_crowds;
use prelude::{BYTE_VALUES, MOST_LITERALS, MOST_SORTS, MOST_TERMS, lesser, own_numbers, wide};
use rules::{join_congruent, join_singles, mark_arguments, strike_marked};
use starting::{Literals, conflict, join_same, mark_differ, spread, start_masks};

// The most rounds of the rules.
const ROUNDS: usize = 512;

// What a round says of the next: it finds nothing, or it may find more, groups having been joined or not.
enum Next {
    Nothing,
    More,
    Joined,
}

// What propagation found out where no conflict showed: what is known of the consistent codes that keep to the decided ones, and how much
// each term's group is tied to others, which only guides the search.
#[derive(Clone, Copy)]
pub struct Propagation {
    pub known: Known,
    pub degree: [u16; MOST_TERMS],
}

// A conflict: no consistent codes keep to the decided ones. The group in which that showed only guides the search.
#[derive(Clone, Copy)]
pub struct Conflict {
    pub group: u8,
}

// What the literals say, which is known of all consistent codes.
pub fn begin(p: Parsed) -> Known
    ensures { Begun (view p) result }
{
    let mut known = Known {
        labels: own_numbers([0u8; MOST_TERMS]),
        masks: [0u16; MOST_TERMS],
        marks: [0u64; MARK_HALVES],
    };
    let literals = Literals {
        equal: &p.equal,
        left: &p.left,
        right: &p.right,
        m: lesser(p.literals, MOST_LITERALS),
    };
    join_same(&mut known, literals);
    mark_differ(&mut known, literals);
    known
}

// What holds of every consistent extension of the decided codes at these sizes, from what is known of them already.
pub fn propagate(
    p: Parsed,
    sizes: [u8; MOST_SORTS],
    decided: [u8; BYTE_VALUES],
    before: &Known,
) -> Result<Propagation, Conflict>
    requires fit_mask { FitMask (view p) (at sizes) }
    requires knowing { Knowing (view p) (at sizes) (at decided) before.now }
    ensures { Propagated (view p) (at sizes) (at decided) result }
{
    let terms = Terms {
        symbol: &p.symbol,
        arg0: &p.arg0,
        arg1: &p.arg1,
        sort: &p.sort,
        n: lesser(p.terms, MOST_TERMS),
    };
    let mut known = *before;
    follow(&mut known, terms, &sizes, &decided);
    if let Some(g) = conflict(&known, terms.n) {
        return Err(Conflict { group: g as u8 });
    }
    known.masks = spread(&known);
    let degree = degrees(&known, uses(&known, terms));
    Ok(Propagation { known, degree })
}

// What the sizes and the decided codes say, and what follows by the rules.
fn follow<'a>(
    known: &mut Known,
    terms: Terms<'a>,
    sizes: &'a [u8; MOST_SORTS],
    decided: &'a [u8; BYTE_VALUES],
)
    ensures { Kept (Allowed terms.entry sizes.now decided.now) (Knows known.old) (Knows known.new) }
{
    start_masks(known, terms, sizes, decided);
    rounds(known, terms);
}

// All rules once. R3 has nothing to do where no groups were joined since it last went through.
fn round<'a>(
    known: &mut Known,
    fresh: &mut [u8; MOST_TERMS],
    terms: Terms<'a>,
    joined: bool,
) -> Next
    ensures { Kept (Lawful terms.entry) (Knows known.old) (Knows known.new) }
{
    let mut joins = join_moved(known, fresh, terms, joined);
    joins = join_singles(known, terms) | joins;
    if strike_marked(known, terms) | joins {
        return said(conflict(known, terms.n).is_none(), joins);
    }
    if mark_arguments(known, terms, fresh) {
        return Next::More;
    }
    strike_crowds(known, terms);
    Next::Nothing
}

// What a round that found something says: there is no more to find where a conflict shows.
fn said(open: bool, joins: bool) -> Next {
    if !open {
        return Next::Nothing;
    }
    if joins { Next::Joined } else { Next::More }
}

// R3, which has nothing to do where no groups were joined since it last went through.
fn join_moved<'a>(
    known: &mut Known,
    fresh: &mut [u8; MOST_TERMS],
    terms: Terms<'a>,
    joined: bool,
) -> bool
    ensures { Kept (Lawful terms.entry) (Knows known.old) (Knows known.new) }
{
    joined && join_congruent(known, fresh, terms)
}

// The rules until they find nothing new.
fn rounds<'a>(known: &mut Known, terms: Terms<'a>)
    ensures { Kept (Lawful terms.entry) (Knows known.old) (Knows known.new) }
{
    let mut fresh = [0u8; MOST_TERMS];
    let mut joined = true;
    for done in 0..ROUNDS {
        match round(known, &mut fresh, terms, joined) {
            Next::Nothing => return,
            Next::More => joined = false,
            Next::Joined => joined = true,
        }
    }
}

// The terms that are their own label, as a row of marks: one half of it.
fn live(known: &Known, half: usize) -> u64
    requires { half < 2 }
{
    let mut row: u64 = 0;
    for k in 0..HALF_BITS {
        if wide(known.labels[half * HALF_BITS + k]) == half * HALF_BITS + k {
            row |= 1u64 << k;
        }
    }
    row
}

// How many bits of a mask are set.
fn ones(w: u64) -> usize
    ensures { result ≤ 64 }
{
    w.count_ones() as usize
}

// Counts one more of a group.
fn count_one(counts: &mut [u8; MOST_TERMS], g: u8) {
    let k = wide(g);
    if k < MOST_TERMS {
        counts[k] = counts[k].saturating_add(1);
    }
}

// How often each group is an argument of a term.
fn uses<'a>(known: &'a Known, terms: Terms<'a>) -> [u8; MOST_TERMS] {
    let mut counts = [0u8; MOST_TERMS];
    for i in 0..terms.n {
        count_one(&mut counts, known.label(terms.arg0[i]));
        count_one(&mut counts, known.label(terms.arg1[i]));
    }
    counts
}

// How much each term's group is tied to others: how often it is an argument, and four times how many groups it is marked against.
fn degrees(known: &Known, used: [u8; MOST_TERMS]) -> [u16; MOST_TERMS] {
    let low = live(known, 0);
    let high = live(known, 1);
    let mut out = [0u16; MOST_TERMS];
    for i in 0..MOST_TERMS {
        let row = wide(known.labels[i]) % MOST_TERMS;
        let apart = ones(known.marks[2 * row] & low) + ones(known.marks[2 * row + 1] & high);
        out[i] = (4 * apart + wide(used[row])) as u16;
    }
    out
}
