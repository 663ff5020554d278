// The causes 3 to 8 and 16 for which a record is refused, tested against the sheet so far.
ghost use Rattle.std.specs.Prelude.{◌≡◌, true, false, ◌&&◌, cond, [], ◌∷◌, ◌<◌, ◌≤◌, length, get_or, drop, ltb, eqb};
ghost use Rattle.logic.specs.Sheet.{Sheet};
ghost use Rattle.prelude.specs.Causes.{tested};
ghost use Rattle.prelude.specs.Tests.{all, within};
ghost use Rattle.prelude.specs.Limits.{most_terms, most_codes, missing};
ghost use Rattle.layout.specs.Layout.{kind_of, rank, reached, misplaced, wrong_length, shortest, longest, occurs, ill_sorted, field, name, expression, same, total};
ghost use Rattle.layout.specs.Packed.{packed};
ghost use Rattle.layout.specs.Parts.{payload_bytes, PartRead, later};

use crate::fills::fill_fault;
use crate::kinds::Kind;
use crate::{Parsed, Payload};
use prelude::refusal::Cause;
use prelude::{
    GREATEST_SIZE, GREATEST_TOTAL, MISSING, MOST_LITERALS, MOST_SORTS, MOST_SYMBOLS, MOST_TERMS,
    wide,
};

// The shortest and the longest payload of each kind, by the kind's number.
const LENGTHS: [[u8; 2]; 8] = [
    [0, 0],
    [2, 2],
    [1, 3],
    [1, 3],
    [2, 2],
    [2, 2],
    [1, 1],
    [2, 2],
];

// Cause 3: no such kind, out of order, not a sort first, or after the total.
pub fn is_misplaced(p: Parsed, kind: usize) -> bool
    ensures { (sh : Sheet) → p ≡ packed sh → result ≡ misplaced sh (kind_of kind) }
{
    let rank = rank_of(kind);
    let reached = reached_by(p);
    if rank == 0 {
        return true;
    }
    if rank < reached {
        return true;
    }
    let ended = reached == 6;
    if ended {
        return true;
    }
    if reached != 0 {
        return false;
    }
    rank != 1
}

// Cause 4: the length is not allowed for the kind.
pub fn is_wrong_length(kind: usize, len: usize) -> bool
    requires { kind < 8 }
    ensures { result ≡ wrong_length kind len }
{
    if len < wide(shortest_of(kind)) {
        return true;
    }
    wide(longest_of(kind)) < len
}

// The causes 5 to 8 and 16 of a record that is in its place and of an allowed length.
pub fn fault(p: Parsed, kind: usize, q: Payload) -> Result<(), Cause>
    requires { PartRead p }
    ensures { (k : PartRead p) → misplaced k.sheet (kind_of kind) ≡ false → wrong_length kind q.len ≡ false → result ≡ tested (later k.sheet (kind_of kind) (payload_bytes q)) }
{
    let Ok(named) = Kind::try_from(kind) else {
        return Ok(());
    };
    match named {
        Kind::Sort => sort_fault(p.sorts, q.b0, q.b1),
        Kind::Symbol => symbol_fault(p.symbols, p.sorts, q),
        Kind::Term => term_fault(p, q),
        Kind::Same => literal_fault(p, q.b0, q.b1),
        Kind::Differ => literal_fault(p, q.b0, q.b1),
        Kind::Total => total_fault(q.b0),
        Kind::Fill => fill_fault(p, q.b0, q.b1),
    }
}

// The place of a kind in the order of the records, 0 where there is no such kind.
fn rank_of(kind: usize) -> usize
    ensures { result ≡ rank (kind_of kind) }
{
    let Ok(named) = Kind::try_from(kind) else {
        return 0;
    };
    match named {
        Kind::Sort => 1,
        Kind::Symbol => 2,
        Kind::Term => 3,
        Kind::Same | Kind::Differ => 4,
        Kind::Total => 6,
        Kind::Fill => 5,
    }
}

// The rank of the last record of the sheet so far, 0 before the first.
fn reached_by(p: Parsed) -> usize
    ensures { (sh : Sheet) → p ≡ packed sh → result ≡ reached sh }
{
    if p.total != 0 {
        return 6;
    }
    if p.fills != 0 {
        return 5;
    }
    if p.literals != 0 {
        return 4;
    }
    if p.terms != 0 {
        return 3;
    }
    if p.symbols != 0 {
        return 2;
    }
    if p.sorts != 0 {
        return 1;
    }
    0
}

fn shortest_of(kind: usize) -> u8
    requires { kind < 8 }
    ensures { result ≡ shortest kind }
{
    LENGTHS[kind][0]
}

fn longest_of(kind: usize) -> u8
    requires { kind < 8 }
    ensures { result ≡ longest kind }
{
    LENGTHS[kind][1]
}

// The causes 5 and 6 of a sort.
fn sort_fault(sorts: usize, b0: u8, b1: u8) -> Result<(), Cause>
    ensures { (sh : Sheet) → sorts ≡ length sh.bounds → result ≡ tested (later sh field (b0 ∷ b1 ∷ [])) }
{
    if MOST_SORTS <= sorts {
        return Err(Cause::OneTooMany);
    }
    if !is_size(b0) {
        return Err(Cause::OutOfRange);
    }
    if !is_size(b1) {
        return Err(Cause::OutOfRange);
    }
    Ok(())
}

// A floor or a ceiling is in range.
fn is_size(b: u8) -> bool
    ensures { result ≡ within 1 most_codes b }
{
    if b < 1 {
        return false;
    }
    b <= GREATEST_SIZE
}

// The causes 5 and 6 of a symbol.
fn symbol_fault(symbols: usize, sorts: usize, q: Payload) -> Result<(), Cause>
    ensures { (sh : Sheet) → symbols ≡ length sh.symbols → sorts ≡ length sh.bounds → result ≡ tested (later sh name (payload_bytes q)) }
{
    if MOST_SYMBOLS <= symbols {
        return Err(Cause::OneTooMany);
    }
    if sorts <= wide(q.b0) {
        return Err(Cause::OutOfRange);
    }
    if !rest_below(q, sorts) {
        return Err(Cause::OutOfRange);
    }
    Ok(())
}

// The causes 5 to 8 of a term.
fn term_fault(p: Parsed, q: Payload) -> Result<(), Cause>
    requires { PartRead p }
    ensures { (k : PartRead p) → result ≡ tested (later k.sheet expression (payload_bytes q)) }
{
    if MOST_TERMS <= p.terms {
        return Err(Cause::OneTooMany);
    }
    if p.symbols <= wide(q.b0) {
        return Err(Cause::OutOfRange);
    }
    if !rest_below(q, p.terms) {
        return Err(Cause::OutOfRange);
    }
    if is_ill_sorted(p, q) {
        return Err(Cause::IllSorted);
    }
    if is_repeated(p, q) {
        return Err(Cause::Repeated);
    }
    Ok(())
}

// The bytes of a payload behind its first are numbers below n.
fn rest_below(q: Payload, n: usize) -> bool
    ensures { result ≡ all (λ a. ltb a n) (drop 1 (payload_bytes q)) }
{
    let len = q.len;
    let b1 = wide(q.b1);
    let b2 = wide(q.b2);
    if len < 2 {
        return true;
    }
    if len < 3 {
        return b1 < n;
    }
    if n <= b1 {
        return false;
    }
    b2 < n
}

// Cause 7 of a term: its arguments are not as many, or not of the sorts, as its symbol takes.
fn is_ill_sorted(p: Parsed, q: Payload) -> bool
    requires part_read { PartRead p }
    requires b0_lt_symbols { (q.b0 < p.symbols) × (all (λ a. ltb a p.terms) (drop 1 (payload_bytes q)) ≡ true) }
    ensures { (k : PartRead p) → result ≡ ill_sorted k.sheet expression (payload_bytes q) }
{
    let f = wide(q.b0);
    let terms = p.terms;
    let sort = p.sort;
    if sort_of(terms, sort, q.b1) != p.param0[f] {
        return true;
    }
    sort_of(terms, sort, q.b2) != p.param1[f]
}

// The sort of an argument among the sorts of so many terms, MISSING where there is none.
fn sort_of(terms: usize, sort: [u8; MOST_TERMS], a: u8) -> u8
    requires { terms ≤ most_terms }
    ensures { result ≡ cond (ltb a terms) (get_or sort a 0) missing }
{
    let i = wide(a);
    if i < terms {
        return sort[i];
    }
    MISSING
}

// Cause 8 of a term: an earlier one has its symbol and arguments.
fn is_repeated(p: Parsed, q: Payload) -> bool
    requires part_read { PartRead p }
    requires q_value { all (λ a. ltb a p.terms) (drop 1 (payload_bytes q)) ≡ true }
    ensures { (k : PartRead p) → result ≡ occurs q.b0 (drop 1 (payload_bytes q)) k.sheet.terms }
{
    for i in 0..p.terms {
        if is_same(p.symbol[i], p.arg0[i], p.arg1[i], q) {
            return true;
        }
    }
    false
}

// A symbol and arguments are those that a payload says.
fn is_same(symbol: u8, arg0: u8, arg1: u8, q: Payload) -> bool
    ensures { result ≡ (eqb symbol q.b0 && (eqb arg0 q.b1 && eqb arg1 q.b2)) }
{
    if symbol != q.b0 {
        return false;
    }
    if arg0 != q.b1 {
        return false;
    }
    arg1 == q.b2
}

// The causes 5 to 7 of a literal, which are the same for both kinds.
fn literal_fault(p: Parsed, b0: u8, b1: u8) -> Result<(), Cause>
    requires { PartRead p }
    ensures { (k : PartRead p) → result ≡ tested (later k.sheet same (b0 ∷ b1 ∷ [])) }
{
    if MOST_LITERALS <= p.literals {
        return Err(Cause::OneTooMany);
    }
    let l = wide(b0);
    let r = wide(b1);
    if p.terms <= l {
        return Err(Cause::OutOfRange);
    }
    if p.terms <= r {
        return Err(Cause::OutOfRange);
    }
    if p.sort[l] == p.sort[r] {
        return Ok(());
    }
    Err(Cause::IllSorted)
}

// Cause 6 of a total; a second one is misplaced.
fn total_fault(b0: u8) -> Result<(), Cause>
    ensures { (sh : Sheet) → sh.total ≡ 0 → result ≡ tested (later sh total (b0 ∷ [])) }
{
    if b0 < 1 {
        return Err(Cause::OutOfRange);
    }
    if GREATEST_TOTAL < b0 {
        return Err(Cause::OutOfRange);
    }
    Ok(())
}
