// R6 of propagation: terms of one symbol whose codes all differ are at most as many as their arguments have pairs of codes. Arguments
// that are terms of one symbol themselves are counted the same way.
#![tactic(auto)]

ghost use Rattle.std.specs.Prelude.{◌≡◌, true, ◌+◌, ◌*◌, ◌≤◌, ◌<◌, ℕ, List, [], ◌∷◌, ◌++◌, length, take};
ghost use Rattle.prelude.specs.Limits.{most_terms, most_codes};
ghost use Rattle.prelude.specs.Lists.{at};
ghost use Rattle.knowledge.specs.Knows.{Labels, Masks, SmallCodes, Differ, Means, Struck};
ghost use Rattle.rules.specs.Reasons.{LawfulGrouped, KnownLawful};
ghost use Rattle.pigeonhole.specs.Parts.{left_below, KnownSmall, Unlike, Gathered, OneCode, Free, Counted, OneSymbol, Arguments};

use knowledge::{Known, NO_CODE_LEFT, Terms};
use prelude::{BYTE_VALUES, MISSING, MOST_CODES, MOST_TERMS, wide};
use std::marker::Model;

// How many levels of arguments are looked at below those of a crowd.
const LEVELS: usize = 3;

// A list of terms in fixed memory: the first of an array.
#[derive(Drop)]
struct Listed {
    terms: [u8; MOST_TERMS],
    count: usize,
}

impl Model for Listed {
    ghost Value = { List ℕ };

    ghost view = { λ l. take l.count l.terms };

    ghost invariant = { λ l. l.count ≤ most_terms };
}

impl Listed {
    fn new() -> Self
        ensures { result ≡ [] }
    {
        Listed {
            terms: [0; MOST_TERMS],
            count: 0,
        }
    }

    fn push(&mut self, term: u8)
        requires { length self.old < most_terms }
        ensures { self.new ≡ self.old ++ term ∷ [] }
    {
        self.terms[self.count] = term;
        self.count += 1;
    }

    fn as_slice(&self) -> &[u8]
        ensures { result.now ≡ self.now }
    {
        &self.terms[..self.count]
    }

    // To a list of terms of one symbol whose codes all differ: takes one more term, if that is of the symbol and known to differ from
    // the others.
    fn grow<'a>(&mut self, known: &'a Known, terms: Terms<'a>, f: u8, i: usize)
        requires term { i < terms.n }
        requires gathered { Gathered terms known.now f i self.old }
        ensures { Gathered terms.entry known.now f (i + 1) self.new }
    {
        let e = terms.symbol[i];
        if e != f {
            return;
        }
        if !unlike(known, self.as_slice(), i) {
            return;
        }
        self.push(i as u8);
    }
}

// R6: a crowd with too few pairs of argument codes is a conflict.
pub fn strike_crowds<'a>(known: &mut Known, terms: Terms<'a>) -> bool
    ensures { Struck (KnownLawful terms.entry known.old) known.old known.new }
{
    let mut met = [false; BYTE_VALUES];
    let mut news = false;
    for i in 0..terms.n {
        news = meet_symbol(known, &mut met, terms, i) | news;
    }
    news
}

// Whether a term is known to differ from all that are chosen.
fn unlike<'a>(known: &'a Known, chosen: &'a [u8], i: usize) -> bool
    requires { i < most_terms }
    ensures { result ≡ true → Unlike known.now chosen.now i }
{
    chosen.iter().all(|a| differ(known, *a, i))
}

// Whether two terms are known to differ.
fn differ(known: &Known, a: u8, i: usize) -> bool
    requires { i < most_terms }
    ensures { result ≡ true → Means (KnownSmall known.now) (Differ a i) }
{
    known.apart(wide(known.label(a)), wide(known.labels[i]))
}

// A crowd of a symbol, terms whose codes all differ: each term is taken where it can be.
fn gather<'a>(known: &'a Known, terms: Terms<'a>, f: u8) -> Listed
    ensures { Gathered terms.entry known.now f terms.entry.n result }
{
    let mut g = Listed::new();
    for i in 0..terms.n {
        g.grow(known, terms, f, i);
    }
    g
}

// Whether the terms of a list have one label.
fn one_label<'a>(known: &'a Known, list: &'a [u8]) -> bool
    ensures { result ≡ true → Means (Labels known.now.labels) (OneCode list.now) }
{
    let Some(first) = list.first() else {
        return true;
    };
    let g = known.label(*first);
    list.iter().all(|a| known.label(*a) == g)
}

// The codes that none of a list can have.
fn common<'a>(known: &'a Known, list: &'a [u8]) -> u16
    ensures { Means (λ c. Labels known.now.labels c × Masks known.now.masks c) (Free result list.now) }
{
    let mut w: u16 = NO_CODE_LEFT;
    for a in list {
        w = w & known.mask(wide(known.label(*a)));
    }
    w
}

// How many codes a mask leaves.
fn left(w: u16) -> usize
    ensures { (result ≡ left_below w most_codes) × (result ≤ most_codes) }
{
    let mut n: usize = 0;
    for v in 0..MOST_CODES {
        n += 1 - ((w >> v) % 2) as usize;
    }
    n
}

// How many codes the terms of a list can have between them, by their labels and masks.
fn values<'a>(known: &'a Known, list: &'a [u8]) -> usize
    ensures { Means (λ c. SmallCodes c × (Labels known.now.labels c × Masks known.now.masks c)) (Counted list.now result) × (result ≤ most_codes) }
{
    if one_label(known, list) {
        return 1;
    }
    left(common(known, list))
}

// What an array has for a term; MISSING for a number past the terms.
fn of_term(xs: &[u8; MOST_TERMS], i: usize) -> u8
    ensures { i < most_terms → result ≡ at xs.now i }
{
    if i < MOST_TERMS { xs[i] } else { MISSING }
}

// Whether a list is of terms of one symbol.
fn one_symbol<'a>(terms: Terms<'a>, list: &'a [u8]) -> bool
    ensures { result ≡ true → OneSymbol terms.entry list.now }
{
    let Some(first) = list.first() else {
        return true;
    };
    let f = of_term(terms.symbol, wide(*first));
    list.iter().all(|a| {
        let i = wide(*a);
        i < terms.n && terms.symbol[i] == f
    })
}

// The arguments of the terms of a list, which are at one place.
fn arguments<'a>(args: &'a [u8; MOST_TERMS], list: &'a [u8]) -> Listed
    requires { length list.now ≤ most_terms }
    ensures { Arguments args.now list.now result }
{
    let mut r = Listed::new();
    for a in list {
        r.push(of_term(args, wide(*a)));
    }
    r
}

// How many pairs of codes the arguments of a list, terms of one symbol, can have between them.
#[cycle(pairs_reach)]
fn pairs<'a>(known: &'a Known, terms: Terms<'a>, list: &'a [u8], levels: usize) -> usize
    requires short { length list.now ≤ most_terms }
    requires one_symbol { OneSymbol terms list.now }
    ensures { Means (LawfulGrouped terms.entry known.now.labels known.now.masks) (Counted list.now result) × (result ≤ most_codes * most_codes) }
{
    let firsts = arguments(terms.arg0, list);
    let seconds = arguments(terms.arg1, list);
    let x = reach(known, terms, firsts.as_slice(), levels);
    let y = reach(known, terms, seconds.as_slice(), levels);
    x * y
}

// How many codes the terms of a list can have between them, by their masks or by their arguments.
#[cycle(pairs_reach)]
fn reach<'a>(known: &'a Known, terms: Terms<'a>, list: &'a [u8], levels: usize) -> usize
    requires { length list.now ≤ most_terms }
    ensures { Means (LawfulGrouped terms.entry known.now.labels known.now.masks) (Counted list.now result) × (result ≤ most_codes) }
{
    let whole = values(known, list);
    if levels == 0 {
        return whole;
    }
    if !one_symbol(terms, list) {
        return whole;
    }
    let both = pairs(known, terms, list, levels - 1);
    if both < whole { both } else { whole }
}

// R6 of one symbol: more terms in its crowd than pairs of argument codes leave no code to a term i.
fn strike_crowd<'a>(known: &mut Known, terms: Terms<'a>, i: usize) -> bool
    requires { i < terms.n }
    ensures { Struck (KnownLawful terms.entry known.old) known.old known.new }
{
    let f = terms.symbol[i];
    let crowd = gather(known, terms, f);
    let chosen = crowd.as_slice();
    let k = chosen.len();
    if k < 2 {
        return false;
    }
    if pairs(known, terms, chosen, LEVELS) < k {
        return known.strike(i, NO_CODE_LEFT);
    }
    false
}

// R6 of the symbol of a term, if it has two arguments and has not been met.
fn meet_symbol<'a>(
    known: &mut Known,
    met: &mut [bool; BYTE_VALUES],
    terms: Terms<'a>,
    i: usize,
) -> bool
    requires { i < terms.n }
    ensures { Struck (KnownLawful terms.entry known.old) known.old known.new }
{
    if terms.arg1[i] == MISSING {
        return false;
    }
    let f = wide(terms.symbol[i]);
    if met[f] {
        return false;
    }
    met[f] = true;
    strike_crowd(known, terms, i)
}
