// Where propagation starts and ends: what the literals, the sizes and the decided codes say before any rule runs, the conflict that ends it,
// and the mask of each term after it.
#![tactic(auto)]

ghost use Rattle.std.specs.Prelude.{◌≡◌, true, ◌<◌, IfSome};
ghost use Rattle.prelude.specs.Limits.{most_terms};
ghost use Rattle.prelude.specs.Lists.{at};
ghost use Rattle.knowledge.specs.Knows.{Bit, Masks, Knows, Means, Kept, Struck, Marked};
ghost use Rattle.starting.specs.Given.{Fixed, SameHold, DifferHold, SmallMasksMarks, Grouped, Never};
ghost use Rattle.starting.specs.Parts.{Beyond};

mod literals;

use knowledge::{Known, NO_CODE_LEFT, Terms};
pub use literals::Literals;
use prelude::{BYTE_VALUES, MOST_CODES, MOST_SORTS, MOST_TERMS, UNDECIDED, wide};

// What the sizes and the decided codes strike out.
pub fn start_masks<'a>(
    known: &mut Known,
    terms: Terms<'a>,
    sizes: &'a [u8; MOST_SORTS],
    decided: &'a [u8; BYTE_VALUES],
)
    ensures { Struck (Fixed terms.entry known.old.labels sizes.now decided.now) known.old known.new }
{
    for i in 0..terms.n {
        start_mask(known, terms, sizes, decided, i);
    }
}

// Joins what the literals say is the same.
pub fn join_same<'a>(known: &mut Known, literals: Literals<'a>)
    ensures { Kept (SameHold literals.entry) (Knows known.old) (Knows known.new) }
{
    for k in 0..literals.m {
        join_sides(known, literals, k);
    }
}

// Marks what the literals say differs.
pub fn mark_differ<'a>(known: &mut Known, literals: Literals<'a>)
    ensures { Marked (DifferHold literals.entry known.old.labels) known.old known.new }
{
    for k in 0..literals.m {
        mark_sides(known, literals, k);
    }
}

// A group with no code left or marked against itself, if there is one among the first n.
pub fn conflict(known: &Known, n: usize) -> Option<usize>
    ensures { IfSome result (λ g. (g < n) × Means (SmallMasksMarks known.now) Never) }
{
    (0..n).find(|g| contradicted(known, *g))
}

// Whether a group has no code left or is marked against itself.
fn contradicted(known: &Known, i: usize) -> bool
    ensures { result ≡ true → Means (SmallMasksMarks known.now) Never }
{
    if known.mask(i) == NO_CODE_LEFT {
        return true;
    }
    known.marked(i, i)
}

// The mask of each term's group.
pub fn spread(known: &Known) -> [u16; MOST_TERMS]
    ensures { Means (Grouped known.now) (Masks result) }
{
    let mut out = [0u16; MOST_TERMS];
    for i in 0..MOST_TERMS {
        out[i] = known.mask(wide(known.labels[i]));
    }
    out
}

// R1: the codes at or past the size of a sort.
fn beyond(sizes: &[u8; MOST_SORTS], s: usize) -> u16
    ensures { Beyond (at sizes.now s) result }
{
    if MOST_SORTS <= s {
        return 0;
    }
    let size = wide(sizes[s]);
    if MOST_CODES < size {
        return 0;
    }
    (65536u32 - (1u32 << size)) as u16
}

// Every code but the one that is decided.
fn all_but(code: u8) -> u16
    ensures { Bit result code → ⊥ }
{
    let v = wide(code);
    if MOST_CODES <= v {
        return 0;
    }
    NO_CODE_LEFT - (1u16 << v)
}

// What the size and the decided code strike out for one term, in the mask of its group.
fn start_mask<'a>(
    known: &mut Known,
    terms: Terms<'a>,
    sizes: &'a [u8; MOST_SORTS],
    decided: &'a [u8; BYTE_VALUES],
    i: usize,
)
    requires { i < terms.n }
    ensures { Struck (Fixed terms.entry known.old.labels sizes.now decided.now) known.old known.new }
{
    let g = known.labels[i];
    known.strike(wide(g), beyond(sizes, wide(terms.sort[i])));
    let code = decided[i];
    if code == UNDECIDED {
        return;
    }
    known.strike(wide(g), all_but(code));
}

// Joins the sides of one literal if it says that they are the same.
// Kept: this and `mark_sides` are no twins to be one function: one joins terms, the other marks groups, and the edits join_differ and
// mark_same stand in them.
fn join_sides<'a>(known: &mut Known, literals: Literals<'a>, k: usize)
    requires { k < literals.m }
    ensures { Kept (SameHold literals.entry) (Knows known.old) (Knows known.new) }
{
    let e = literals.equal[k];
    if e == 1 {
        known.join(wide(literals.left[k]), wide(literals.right[k]));
    }
}

// Marks the groups of the sides of one literal if it says that they differ.
fn mark_sides<'a>(known: &mut Known, literals: Literals<'a>, k: usize)
    requires { k < literals.m }
    ensures { Marked (DifferHold literals.entry known.old.labels) known.old known.new }
{
    let e = literals.equal[k];
    if e == 0 {
        let a = known.label(literals.left[k]);
        let b = known.label(literals.right[k]);
        known.mark(wide(a), wide(b));
    }
}
