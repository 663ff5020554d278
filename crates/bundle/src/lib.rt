// The question "bundle": several sheets that share one board, the smallest sum of each, and what they leave of a limit.
#![tactic(auto)]

ghost use Rattle.std.specs.Prelude.{◌≡◌};
ghost use Rattle.bundle.specs.Bundle.{parts, smallest, told, gives, sharing, summing, bundling, answered};
ghost use Rattle.bundle.specs.Parts.{Found, Inside};

use prelude::refusal::{Cause, Refusal};
use prelude::{MOST_SORTS, wide};
use records::{Step, record_at};

// The most sheets of a bundle.
pub const MOST_SHEETS: usize = 8;

// The kind of a bundle's records.
const SHEET_KIND: usize = 9;

// The answer to the question "bundle": the smallest sum of each sheet, in the bundle's order, 0 in unused places; and what they leave of the limit.
#[derive(Clone, Copy)]
pub struct Shares {
    pub sums: [u8; MOST_SHEETS],
    pub left: u8,
}

// Where the sheets of a bundle start and end in its bytes, and how many there are.
// Kept: two arrays and a count, since what holds of a place (`Held`) speaks of starts and ends apart, and a list of structs would be no plainer.
#[derive(Clone, Copy)]
pub(crate) struct Parts {
    pub many: usize,
    pub starts: [usize; MOST_SHEETS],
    pub ends: [usize; MOST_SHEETS],
}

// Bundle: the bundle itself is tested (cause 18) before a sheet is read; then each sheet is asked by itself, and the limit comes last.
pub fn bundle(bytes: &[u8], limit: u8) -> Result<Shares, Refusal>
    ensures { result ≡ answered (bundling bytes.now limit) }
{
    let Some(found) = parts_of(bytes) else {
        return Err(Cause::IllBundled.at(0));
    };
    sums_of(bytes, found, limit)
}

// Where the sheets lie, record after record; nowhere where the bundle itself is at fault.
fn parts_of(s: &[u8]) -> Option<Parts>
    ensures { Found (parts s.now) result }
{
    let n = s.len();
    let mut starts = [0usize; MOST_SHEETS];
    let mut ends = [0usize; MOST_SHEETS];
    let mut many: usize = 0;
    let mut at: usize = 0;
    // Kept: each record says where the next one starts, no index is counted.
    while at < n {
        let found = record_at(s, at);
        let step = found.step;
        let Step::Record {
            kind,
            start,
            len: _,
        } = step
        else {
            return None;
        };
        if kind != SHEET_KIND || many == MOST_SHEETS {
            return None;
        }
        at = found.behind;
        starts[many] = start;
        ends[many] = at;
        many += 1;
    }
    if many == 0 {
        return None;
    }
    Some(Parts { many, starts, ends })
}

// The sums of the sheets that lie there, held against the limit; the first sheet that is refused decides, its place counted from the bundle's start.
fn sums_of(s: &[u8], found: Parts, limit: u8) -> Result<Shares, Refusal>
    requires { Inside s.now found }
    ensures { (k : Inside s.now found) → result ≡ answered (gives limit (summing s.now k.parts)) }
{
    let mut sums = [0u8; MOST_SHEETS];
    for i in 0..found.many {
        let start = found.starts[i];
        let end = found.ends[i];
        match smallest_sum(&s[start..end]) {
            Err(r) => {
                let place = start + r.place;
                return Err(Refusal {
                    cause: r.cause,
                    place,
                });
            }
            Ok(sum) => sums[i] = sum as u8,
        }
    }
    settled(sums, limit)
}

// One sheet's own answer: its smallest sum, or its refusal.
fn smallest_sum(sheet: &[u8]) -> Result<usize, Refusal>
    ensures { result ≡ told (smallest sheet.now) }
{
    let mut out = [0u8; MOST_SORTS];
    sizes::sizes(sheet, &mut out)
}

// The limit comes last: cause 19 where the sums exceed it, else what they leave. The eight sums are added up as the eight sizes of a sheet are.
fn settled(sums: [u8; MOST_SHEETS], limit: u8) -> Result<Shares, Refusal>
    ensures { result ≡ answered (sharing limit sums) }
{
    let spent = tables::sum_of(sums, MOST_SHEETS);
    if wide(limit) < spent {
        return Err(Cause::OverLimit.at(0));
    }
    Ok(Shares {
        sums,
        left: limit - spent as u8,
    })
}
