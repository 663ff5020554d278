// The grouping of terms: congruence closure of the same statements. A group's label is its lowest-numbered term, held in a byte.
#![tactic(auto)]

ghost use Rattle.std.specs.Prelude.{◌≤◌, ◌<◌, ◌≡◌, true, false, map};
ghost use Rattle.prelude.specs.Lists.{at, sum_to};
ghost use Rattle.prelude.specs.Limits.{most_terms};
ghost use Rattle.layout.specs.Packed.{view};
ghost use Rattle.congruence.specs.Closure.{relabel};
ghost use Rattle.congruence.specs.Groups.{Groups, Closable};
ghost use Rattle.congruence.specs.Parts.{Joined, named, key_at, Twin, Closed, Coarsening, Stated, Swept};

use layout::Parsed;
use prelude::{MOST_TERMS, own_numbers, wide};

// A symbol with the labels of its two arguments: terms with one key have equal codes.
#[derive(Clone, Copy, PartialEq, Eq)]
pub(crate) struct Key {
    pub symbol: u8,
    pub first: u8,
    pub second: u8,
}

// The number of each term's group: the lowest-numbered term that the same statements of the sheet force together with it.
pub fn groups(p: Parsed) -> [u8; MOST_TERMS]
    requires { Closable (view p) }
    ensures { Groups (view p) (at result) }
{
    let alone = own_numbers([0u8; MOST_TERMS]);
    let labels = stated(p, alone);
    saturated(p, labels)
}

// The groups that each same statement makes one.
fn stated(p: Parsed, labels: [u8; MOST_TERMS]) -> [u8; MOST_TERMS]
    requires { Closable (view p) }
    ensures { (Coarsening (view p) (at labels) (at result)) × (Stated (view p) (at result)) }
{
    let mut out = labels;
    let literals = p.literals;
    for k in 0..literals {
        if p.equal[k] == 1 {
            let left = wide(p.left[k]);
            let right = wide(p.right[k]);
            let next = joined(out, left, right);
            out = next;
        }
    }
    out
}

// Sweeps until one changes nothing.
fn saturated(p: Parsed, labels: [u8; MOST_TERMS]) -> [u8; MOST_TERMS]
    requires { p.terms ≤ most_terms }
    ensures { (Coarsening (view p) (at labels) (at result)) × (Closed (view p) (at result)) }
{
    let mut out = labels;
    loop {
        let next = sweep(p, out);
        if weight(next) == weight(out) {
            return next;
        }
        out = next;
    }
}

// One sweep of the congruence rule: each term joins the group of the first term with its key.
fn sweep(p: Parsed, labels: [u8; MOST_TERMS]) -> [u8; MOST_TERMS]
    requires { p.terms ≤ most_terms }
    ensures { Swept (view p) (at labels) (at result) }
{
    let mut out = labels;
    let terms = p.terms;
    for j in 0..terms {
        let t = twin(p, out, j);
        let next = joined(out, t, j);
        out = next;
    }
    out
}

// The first term with the key of term j.
fn twin(p: Parsed, labels: [u8; MOST_TERMS], j: usize) -> usize
    requires { (p.terms ≤ most_terms) × (j < p.terms) }
    ensures { Twin (view p) (at labels) j result }
{
    let terms = p.terms;
    let goal = key_of(&labels, terms, p.symbol[j], p.arg0[j], p.arg1[j]);
    for i in 0..j {
        let here = key_of(&labels, terms, p.symbol[i], p.arg0[i], p.arg1[i]);
        if here == goal {
            return i;
        }
    }
    j
}

// The key of a symbol at two arguments.
fn key_of(labels: &[u8; MOST_TERMS], terms: usize, f: u8, a: u8, b: u8) -> Key
    requires { terms ≤ most_terms }
    ensures { result ≡ key_at terms (at labels.now) f a b }
{
    let first = label_of(labels, terms, a);
    let second = label_of(labels, terms, b);
    Key {
        symbol: f,
        first,
        second,
    }
}

// The label of an argument; a missing one stands for itself.
fn label_of(labels: &[u8; MOST_TERMS], terms: usize, a: u8) -> u8
    requires { terms ≤ most_terms }
    ensures { result ≡ named terms (at labels.now) a }
{
    let i = wide(a);
    if i < terms { labels[i] } else { a }
}

// The groups of the terms i and j made one.
fn joined(labels: [u8; MOST_TERMS], i: usize, j: usize) -> [u8; MOST_TERMS]
    requires { (i < most_terms) × (j < most_terms) }
    ensures { Joined (at labels) i j (at result) }
{
    let a = labels[i];
    let b = labels[j];
    if a < b {
        return merged(labels, a, b);
    }
    if b < a {
        return merged(labels, b, a);
    }
    labels
}

// All terms of the label hi take the label lo.
fn merged(labels: [u8; MOST_TERMS], lo: u8, hi: u8) -> [u8; MOST_TERMS]
    ensures { result ≡ map (relabel lo hi) labels }
{
    let mut out = labels;
    for label in &mut out {
        *label = relabelled(*label, lo, hi);
    }
    out
}

// A label where all terms of the label hi take the label lo.
fn relabelled(label: u8, lo: u8, hi: u8) -> u8
    ensures { result ≡ relabel lo hi label }
{
    if label == hi { lo } else { label }
}

// The sum of the labels; it falls whenever groups become one.
fn weight(labels: [u8; MOST_TERMS]) -> usize
    ensures { result ≡ sum_to most_terms (at labels) }
{
    let mut sum: usize = 0;
    for label in &labels {
        sum += wide(*label);
    }
    sum
}
