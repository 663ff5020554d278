// The knowledge that propagation gathers about terms: labels of groups, a byte each, masks of struck codes, marks of different pairs.
// Each method adds knowledge, and promises that what was true of an assignment of codes stays true of it.
#![tactic(auto)]

ghost use Rattle.std.specs.Prelude.{◌≡◌, true, ◌+◌, ◌*◌, ◌/◌, ◌^◌, ◌≤◌, ◌<◌};
ghost use Rattle.prelude.specs.Limits.{most_terms, most_codes};
ghost use Rattle.prelude.specs.Lists.{at};
ghost use Rattle.knowledge.specs.Knows.{Bit, Labels, Masks, Marks, Knows, SmallCodes, Same, Differ, Means, Kept, Struck, Marked, Single, IfSingle, half_bits};

mod columns;
mod terms;

pub use columns::Columns;
use prelude::{MOST_CODES, MOST_TERMS, wide};
pub use terms::Terms;

// Marks are a row of bits for each term, two halves of 64 bits to a row: bit j of row i is set where the codes of i and j differ.
pub const HALF_BITS: usize = 64;

pub const MARK_HALVES: usize = 2 * MOST_TERMS;

// The mask in which all codes are struck out.
pub const NO_CODE_LEFT: u16 = 65535;

// What is known of some assignments of codes to terms.
#[derive(Clone, Copy)]
pub struct Known {
    // the group of each term, named by one of its terms
    pub labels: [u8; MOST_TERMS],
    // the codes that each term cannot have: bit v for code v
    pub masks: [u16; MOST_TERMS],
    // the pairs of terms with different codes
    pub marks: [u64; MARK_HALVES],
}

impl Known {
    // The label of a term; a number past the terms is its own label.
    pub fn label(&self, i: u8) -> u8
        ensures { Means (Labels self.now.labels) (Same result i) }
    {
        let k = wide(i);
        if k < MOST_TERMS { self.labels[k] } else { i }
    }

    // The mask of a term; a number past the terms has nothing struck out.
    pub fn mask(&self, i: usize) -> u16
        ensures { Means (Masks self.now.masks) (λ c. Bit result (c i) → ⊥) }
    {
        if i < MOST_TERMS { self.masks[i] } else { 0 }
    }

    // Whether two terms are marked as different.
    pub fn marked(&self, a: usize, b: usize) -> bool
        ensures { result ≡ true → Means (Marks self.now.marks) (Differ a b) }
    {
        if MOST_TERMS <= a || MOST_TERMS <= b {
            return false;
        }
        (self.marks[half_of(a, b)] >> (b % HALF_BITS)) % 2 == 1
    }

    // The columns that are marked in the row of a term; a number past the terms has none.
    pub fn columns(&self, a: usize) -> Columns
        ensures row { a < most_terms → (result.low ≡ at self.now.marks (2 * a)) × (result.high ≡ at self.now.marks (2 * a + 1)) }
        ensures none { most_terms ≤ a → (result.low ≡ 0) × (result.high ≡ 0) }
        ensures halves { (result.low < 2 ^ half_bits) × (result.high < 2 ^ half_bits) }
    {
        if MOST_TERMS <= a {
            return Columns { low: 0, high: 0 };
        }
        Columns {
            low: self.marks[2 * a],
            high: self.marks[2 * a + 1],
        }
    }

    // Whether two terms are known to differ: they are marked, or no code is left to both.
    pub fn apart(&self, a: usize, b: usize) -> bool
        ensures { result ≡ true → Means (λ c. SmallCodes c × (Masks self.now.masks c × Marks self.now.marks c)) (Differ a b) }
    {
        if self.marked(a, b) {
            return true;
        }
        (self.mask(a) | self.mask(b)) == NO_CODE_LEFT
    }

    // Strikes out the codes of a mask s in the mask of a term; says whether that is news.
    pub fn strike(&mut self, i: usize, s: u16) -> bool
        ensures { Struck (λ c. Bit s (c i) → ⊥) self.old self.new }
    {
        if i < MOST_TERMS {
            let old = self.masks[i];
            self.masks[i] = old | s;
            (old | s) != old
        } else {
            false
        }
    }

    // Marks two terms as different; says whether that is news.
    pub fn mark(&mut self, a: usize, b: usize) -> bool
        ensures { Marked (Differ a b) self.old self.new }
    {
        if self.marked(a, b) {
            return false;
        }
        self.mark_one(a, b);
        self.mark_one(b, a);
        true
    }

    // Joins the groups of two terms, the lower label staying; says whether that is news.
    pub fn join(&mut self, i: usize, j: usize) -> bool
        ensures { Kept (Same i j) (Knows self.old) (Knows self.new) }
    {
        if MOST_TERMS <= i {
            return false;
        }
        if MOST_TERMS <= j {
            return false;
        }
        let a = self.labels[i];
        let b = self.labels[j];
        if a < b {
            self.merge(a, b);
            return true;
        }
        if b < a {
            self.merge(b, a);
            return true;
        }
        false
    }

    // The bit of column b in row a.
    fn mark_one(&mut self, a: usize, b: usize)
        ensures { Marked (Differ a b) self.old self.new }
    {
        if MOST_TERMS <= a {
            return;
        }
        if MOST_TERMS <= b {
            return;
        }
        let x = half_of(a, b);
        self.marks[x] = self.marks[x] | (1u64 << (b % HALF_BITS));
    }

    // Gives the terms of group b the label a.
    fn relabel(&mut self, a: u8, b: u8)
        ensures { Kept (Same a b) (Knows self.old) (Knows self.new) }
    {
        for k in 0..MOST_TERMS {
            self.labels[k] = new_label(self.labels[k], a, b);
        }
    }

    // Marks k against a if it is marked against b.
    fn unite_one(&mut self, a: u8, b: u8, k: usize)
        ensures { Marked (Same a b) self.old self.new }
    {
        if self.marked(wide(b), k) {
            self.mark(wide(a), k);
        }
    }

    // Marks against a what is marked against b.
    fn unite_rows(&mut self, a: u8, b: u8)
        ensures { Marked (Same a b) self.old self.new }
    {
        for k in self.columns(wide(b)) {
            self.unite_one(a, b, k);
        }
    }

    // Joins group b to group a: one label, both masks, both rows of marks.
    fn merge(&mut self, a: u8, b: u8)
        ensures { Kept (Same a b) (Knows self.old) (Knows self.new) }
    {
        if MOST_TERMS <= wide(b) {
            return;
        }
        self.relabel(a, b);
        let s = self.mask(wide(b));
        self.strike(wide(a), s);
        self.unite_rows(a, b);
    }
}

// The one code that is left in a mask, if there is one.
pub fn single(w: u16) -> Option<usize>
    ensures { IfSingle w result }
{
    let v = u16::trailing_zeros(NO_CODE_LEFT - w) as usize;
    if v < MOST_CODES {
        if w == NO_CODE_LEFT - (1u16 << v) {
            return Some(v);
        }
    }
    None
}

// The half of a row of marks in which column b of row a stands.
fn half_of(a: usize, b: usize) -> usize
    requires { (a < most_terms) × (b < most_terms) }
    ensures { (result ≡ 2 * a + b / half_bits) × (result < 2 * most_terms) }
{
    2 * a + b / HALF_BITS
}

// The label of a group that has been joined to group a.
fn new_label(x: u8, a: u8, b: u8) -> u8
    ensures { Means (Same a b) (Same result x) }
{
    if x == b { a } else { x }
}
