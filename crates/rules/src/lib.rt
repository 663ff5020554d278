// The rules of propagation, each a pass over all terms that adds knowledge. A rule is an optional inference: a pass promises that what
// was true of an assignment stays true, and which pairs of terms it tries is free.
#![tactic(auto)]

ghost use Rattle.std.specs.Prelude.{◌*◌, ◌<◌};
ghost use Rattle.prelude.specs.Limits.{most_sorts, most_terms, most_codes};
ghost use Rattle.knowledge.specs.Knows.{Knows, Marks, Differ, SmallCodes, Means, Kept, Struck, Marked};
ghost use Rattle.rules.specs.Reasons.{CongruentTerms, SmallMarks, LawfulGrouped};
ghost use Rattle.rules.specs.Parts.{CodeMarks};

use knowledge::{Known, Terms, single};
use prelude::{MISSING, MOST_CODES, MOST_SORTS, MOST_TERMS, wide};

// Stands in the buckets where there is no earlier term.
// Kept: a number and not an Option, no plainer: one test, MOST_TERMS <= j, is both the end of a bucket and the bound of the next index.
const NO_TERM: u8 = 255;

// Places for the groups with a single code: one for each code of each sort.
const PLACES: usize = MOST_SORTS * MOST_CODES;

// The length of the tables that terms are looked up in by a number made of their symbol and arguments.
const SLOTS: usize = 256;

// R2: groups of one sort with the same single code left are one.
pub fn join_singles<'a>(known: &mut Known, terms: Terms<'a>) -> bool
    ensures { Kept SmallCodes (Knows known.old) (Knows known.new) }
{
    let mut first: [Option<u8>; PLACES] = [None; PLACES];
    let mut news = false;
    for i in 0..terms.n {
        news = meet_single(known, &mut first, terms.sort[i], i) | news;
    }
    news
}

// R3: terms of one symbol whose arguments have equal labels are one group; fresh becomes 1 at the first of each such group and 0 at the
// others.
// Kept: fresh is a byte and no flag, here and below: docs/DESIGN.md names these functions, whose types may not ask more.
pub fn join_congruent<'a>(known: &mut Known, fresh: &mut [u8; MOST_TERMS], terms: Terms<'a>) -> bool
    ensures { Kept (CongruentTerms terms.entry) (Knows known.old) (Knows known.new) }
{
    let mut table: [Option<u8>; SLOTS] = [None; SLOTS];
    let mut keys = [0u32; SLOTS];
    let mut news = false;
    for i in 0..terms.n {
        news = meet_key(known, &mut table, &mut keys, fresh, terms, i) | news;
    }
    news
}

// R5: a group with one code left takes it out of the groups marked against it.
pub fn strike_marked<'a>(known: &mut Known, terms: Terms<'a>) -> bool
    ensures { Struck (SmallMarks known.old.marks) known.old known.new }
{
    let mut news = false;
    for i in 0..terms.n {
        news = strike_row(known, i) | news;
    }
    news
}

// R4: where the results of one symbol differ and all argument pairs but one are equal, that pair differs. The terms to compare with share
// the second argument, or the lack of one, or the first.
pub fn mark_arguments<'a>(known: &mut Known, terms: Terms<'a>, fresh: &'a [u8; MOST_TERMS]) -> bool
    ensures { Marked (LawfulGrouped terms.entry known.old.labels known.old.masks) known.old known.new }
{
    let news = contrapose_all(known, terms, terms.arg0, terms.arg1, fresh);
    contrapose_all(known, terms, terms.arg1, terms.arg0, fresh) | news
}

// R2 of two terms: with the same single code left they are one group.
fn same_code(known: &mut Known, i: usize, j: usize) -> bool
    ensures { Kept SmallCodes (Knows known.old) (Knows known.new) }
{
    let Some(v) = single(known.mask(i)) else {
        return false;
    };
    let Some(u) = single(known.mask(j)) else {
        return false;
    };
    if u != v {
        return false;
    }
    known.join(i, j)
}

// The place for the code v of a sort among the groups with a single code.
fn place_of(sort: u8, v: usize) -> usize
    requires { v < most_codes }
    ensures { result < most_sorts * most_codes }
{
    wide(sort) % MOST_SORTS * MOST_CODES + v
}

// R2 of one group: joins it to the group met before with its single code, or notes it as the first.
fn meet_single(known: &mut Known, first: &mut [Option<u8>; PLACES], sort: u8, i: usize) -> bool
    requires { i < most_terms }
    ensures { Kept SmallCodes (Knows known.old) (Knows known.new) }
{
    if wide(known.labels[i]) != i {
        return false;
    }
    let Some(v) = single(known.mask(i)) else {
        return false;
    };
    let k = place_of(sort, v);
    let Some(j) = first[k] else {
        first[k] = Some(i as u8);
        return false;
    };
    same_code(known, wide(j), i)
}

// R3 of two terms: one symbol and equal argument labels, so they are one group.
fn congruent<'a>(known: &mut Known, terms: Terms<'a>, i: usize, j: usize) -> bool
    requires { i < terms.n }
    ensures { Kept (CongruentTerms terms.entry) (Knows known.old) (Knows known.new) }
{
    if terms.n <= j {
        return false;
    }
    let f = terms.symbol[i];
    let g = terms.symbol[j];
    if f != g {
        return false;
    }
    if known.label(terms.arg0[i]) != known.label(terms.arg0[j]) {
        return false;
    }
    if known.label(terms.arg1[i]) != known.label(terms.arg1[j]) {
        return false;
    }
    known.join(i, j)
}

// The symbol and the argument labels of a term as one number.
fn key<'a>(known: &'a Known, terms: Terms<'a>, i: usize) -> usize
    requires { i < terms.n }
    ensures { result < 16777216 }
{
    let a = known.label(terms.arg0[i]);
    let b = known.label(terms.arg1[i]);
    wide(terms.symbol[i]) * 65536 + wide(a) * 256 + wide(b)
}

// Where a key stands in the table of the terms met so far, or the free place for it.
fn slot<'a>(table: &'a [Option<u8>; SLOTS], keys: &'a [u32; SLOTS], k: u32) -> usize
    ensures { result < 256 }
{
    let mut h: usize = ((k / 65536 * 31 + k / 256 % 256 * 17 + k % 256 * 101) % 256) as usize;
    for tried in 0..SLOTS {
        if table[h].is_none() {
            return h;
        }
        if keys[h] == k {
            return h;
        }
        h = (h + 1) % SLOTS;
    }
    h
}

// R3 of one term: joins it to the term met before with its key, or notes it as the first.
fn meet_key<'a>(
    known: &mut Known,
    table: &mut [Option<u8>; SLOTS],
    keys: &mut [u32; SLOTS],
    fresh: &mut [u8; MOST_TERMS],
    terms: Terms<'a>,
    i: usize,
) -> bool
    requires { i < terms.n }
    ensures { Kept (CongruentTerms terms.entry) (Knows known.old) (Knows known.new) }
{
    if terms.arg0[i] == MISSING {
        return false;
    }
    let k = key(known, terms, i) as u32;
    let h = slot(table, keys, k);
    let Some(j) = table[h] else {
        table[h] = Some(i as u8);
        keys[h] = k;
        fresh[i] = 1;
        return false;
    };
    fresh[i] = 0;
    congruent(known, terms, i, wide(j))
}

// R5 of two groups: k cannot have the code v of a group g that it is marked against.
fn strike_one(known: &mut Known, g: usize, v: usize, k: usize) -> bool
    requires code { v < most_codes }
    requires marked { Means (Marks known.old.marks) (Differ g k) }
    ensures { Struck (CodeMarks known.old.marks g v) known.old known.new }
{
    known.strike(k, 1u16 << v)
}

// R5 of one group: a single code left is struck out in the groups marked against it.
fn strike_row(known: &mut Known, g: usize) -> bool
    requires { g < most_terms }
    ensures { Struck (SmallMarks known.old.marks) known.old known.new }
{
    if wide(known.labels[g]) != g {
        return false;
    }
    let Some(v) = single(known.mask(g)) else {
        return false;
    };
    let mut news = false;
    for k in known.columns(g) {
        news = strike_one(known, g, v, k) | news;
    }
    news
}

// For each fresh term that has the argument `there`, the nearest earlier one with the same symbol and the same label of the argument
// `by`, NO_TERM where there is none; now and then one with another label.
fn buckets<'a>(
    known: &'a Known,
    terms: Terms<'a>,
    there: &'a [u8; MOST_TERMS],
    by: &'a [u8; MOST_TERMS],
    fresh: &'a [u8; MOST_TERMS],
) -> [u8; MOST_TERMS] {
    let mut earlier = [NO_TERM; MOST_TERMS];
    let mut last = [NO_TERM; SLOTS];
    for i in 0..terms.n {
        if fresh[i] == 1 && there[i] != MISSING {
            let h = (wide(terms.symbol[i]) * 37 + wide(known.label(by[i])) * 11) % SLOTS;
            earlier[i] = last[h];
            last[h] = i as u8;
        }
    }
    earlier
}

// R4 of two terms: where their results differ and all argument pairs but one are equal, that pair differs.
fn contrapose<'a>(known: &mut Known, terms: Terms<'a>, i: usize, j: usize) -> bool
    requires { i < terms.n }
    ensures { Marked (LawfulGrouped terms.entry known.old.labels known.old.masks) known.old known.new }
{
    if terms.n <= j {
        return false;
    }
    let f = terms.symbol[i];
    let g = terms.symbol[j];
    if f != g {
        return false;
    }
    if !known.apart(wide(known.labels[i]), wide(known.labels[j])) {
        return false;
    }
    let a = known.label(terms.arg0[i]);
    let b = known.label(terms.arg0[j]);
    let x = known.label(terms.arg1[i]);
    let y = known.label(terms.arg1[j]);
    if x == y {
        return known.mark(wide(a), wide(b));
    }
    if a == b {
        return known.mark(wide(x), wide(y));
    }
    false
}

// R4 of one term and the earlier terms of its symbol.
fn contrapose_row<'a>(
    known: &mut Known,
    terms: Terms<'a>,
    earlier: &'a [u8; MOST_TERMS],
    i: usize,
) -> bool
    requires { i < terms.n }
    ensures { Marked (LawfulGrouped terms.entry known.old.labels known.old.masks) known.old known.new }
{
    let mut news = false;
    let mut j = wide(earlier[i]);
    for tried in 0..MOST_TERMS {
        if MOST_TERMS <= j {
            return news;
        }
        news = contrapose(known, terms, i, j) | news;
        j = wide(earlier[j]);
    }
    news
}

// R4 of each term and the earlier terms of its bucket.
fn contrapose_all<'a>(
    known: &mut Known,
    terms: Terms<'a>,
    there: &'a [u8; MOST_TERMS],
    by: &'a [u8; MOST_TERMS],
    fresh: &'a [u8; MOST_TERMS],
) -> bool
    ensures { Marked (LawfulGrouped terms.entry known.old.labels known.old.masks) known.old known.new }
{
    let earlier = buckets(known, terms, there, by, fresh);
    let mut news = false;
    for i in (0..terms.n).rev() {
        news = contrapose_row(known, terms, &earlier, i) | news;
    }
    news
}
