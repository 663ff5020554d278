// The whole test of a list of codes: whether the terms of a sheet can have them.
#![tactic(auto)]

ghost use Rattle.std.specs.Prelude.{◌≡◌, ℕ, ◌<◌};
ghost use Rattle.prelude.specs.Limits.{most_codes};
ghost use Rattle.prelude.specs.Tests.{Decides};
ghost use Rattle.prelude.specs.Lists.{at};
ghost use Rattle.logic.specs.Problem.{Consistent};
ghost use Rattle.layout.specs.Packed.{view};
ghost use Rattle.consistency.specs.Searchable.{Searchable, SmallSizes};
ghost use Rattle.consistency.specs.Searchable.{Padded};
ghost use Rattle.consistency.specs.Parts.{InRange, Hold, Functional};

use layout::Parsed;
use prelude::{BYTE_VALUES, MOST_CODES, MOST_SORTS, wide};
use tables::{agrees, cell_of, with_cell};

// Stands in a cell that holds no code yet.
// Kept: a number and not an Option, and the table by value below: a form that the customer names (docs/DECISIONS.md, "Where each named form stands").
const EMPTY: u8 = 255;

// Whether codes are consistent: in range, meeting every statement, and congruent, symbol by symbol.
pub fn consistent(p: Parsed, sizes: [u8; MOST_SORTS], codes: [u8; BYTE_VALUES]) -> bool
    requires searchable { Searchable p }
    requires small_sizes { SmallSizes p (at sizes) }
    requires padded { Padded (view p) (at codes) }
    ensures { Decides result (Consistent (view p) (at sizes) (at codes)) }
{
    if !in_range(p, sizes, codes) {
        return false;
    }
    if !hold(p, codes) {
        return false;
    }
    for f in 0..p.symbols {
        if !functional(p, codes, f) {
            return false;
        }
    }
    true
}

// The code of a term as an index; that of a missing argument is 0.
fn code_of(codes: [u8; BYTE_VALUES], term: u8) -> usize
    ensures { result ≡ at codes term }
{
    let i = wide(term);
    wide(codes[i])
}

// Whether every term's code lies below the size of its sort.
fn in_range(p: Parsed, sizes: [u8; MOST_SORTS], codes: [u8; BYTE_VALUES]) -> bool
    requires { Searchable p }
    ensures { Decides result (InRange (view p) (at sizes) (at codes)) }
{
    for i in 0..p.terms {
        let s = wide(p.sort[i]);
        if sizes[s] <= codes[i] {
            return false;
        }
    }
    true
}

// Whether every statement holds.
fn hold(p: Parsed, codes: [u8; BYTE_VALUES]) -> bool
    requires { Searchable p }
    ensures { Decides result (Hold (view p) (at codes)) }
{
    for k in 0..p.literals {
        let left = wide(p.left[k]);
        let right = wide(p.right[k]);
        if !agrees(p.equal[k], codes[left], codes[right]) {
            return false;
        }
    }
    true
}

// Whether the terms of one symbol fit into one table: equal argument codes, equal codes. A cell in which no code stands yet is EMPTY.
fn functional(p: Parsed, codes: [u8; BYTE_VALUES], symbol: usize) -> bool
    requires searchable { Searchable p }
    requires by_index { (i : ℕ) → at codes i < most_codes }
    ensures { Decides result (Functional (view p) (at codes) symbol) }
{
    let mut t = [[EMPTY; MOST_CODES]; MOST_CODES];
    for i in 0..p.terms {
        if wide(p.symbol[i]) == symbol {
            let row = code_of(codes, p.arg0[i]);
            let col = code_of(codes, p.arg1[i]);
            let code = codes[i];
            let old = cell_of(t, row, col);
            if old == EMPTY {
                let u = with_cell(t, row, col, code);
                t = u;
            } else if old != code {
                return false;
            }
        }
    }
    true
}
