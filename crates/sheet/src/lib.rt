// The question whether a sheet is accepted, and the parser that answers it: record after record is tested and added.
#![tactic(auto)]

ghost use Rattle.std.specs.Prelude.{◌≡◌, ◌+◌, ◌<◌, ◌≤◌, length, get_or, take, drop};
ghost use Rattle.prelude.specs.Limits.{missing};
ghost use Rattle.records.specs.Record.{payload_at, kind_at};
ghost use Rattle.records.specs.Step.{step_at, behind};
ghost use Rattle.layout.specs.Layout.{reading, cause};
ghost use Rattle.layout.specs.Parts.{payload_bytes, PartRead, fault_at};
ghost use Rattle.sheet.specs.Verdict.{parsing, verdict};
ghost use Rattle.sheet.specs.Parts.{taken};

use layout::faults::{fault, is_misplaced, is_wrong_length};
use layout::grow::added;
use layout::{Parsed, Payload, nothing};
use prelude::MISSING;
use prelude::refusal::{Cause, Refusal};
use records::{Step, record_at};

// The most bytes of a sheet.
const MOST_BYTES: usize = 4096;

// A record tested and added: where the next one starts, and the sheet with it.
#[derive(Clone, Copy)]
pub(crate) struct Taken {
    pub next: usize,
    pub sheet: Parsed,
}

// The question "read": whether a sheet is accepted.
pub fn read(s: &[u8]) -> Result<(), Refusal>
    ensures { result ≡ verdict (reading s.now) }
{
    // Kept: no `?`, in which the edit `accepts_every_sheet` would find no answer to change.
    match parse(s) {
        Ok(_) => Ok(()),
        Err(r) => Err(r),
    }
}

// What the sheet's bytes say: the parsed sheet, or the refusal.
pub fn parse(s: &[u8]) -> Result<Parsed, Refusal>
    ensures { result ≡ parsing (reading s.now) }
{
    let n = s.len();
    if MOST_BYTES < n {
        return Err(Cause::TooLong.at(0));
    }
    let mut p = nothing();
    let mut at: usize = 0;
    // Kept: each record says where the next one starts, no index is counted.
    while at < n {
        match read_record(p, s, at) {
            Ok(taken) => {
                at = taken.next;
                p = taken.sheet;
            }
            Err(cause) => return Err(cause.at(at)),
        }
    }
    if p.total == 0 && n != 0 {
        return Err(Cause::NoTotal.at(n));
    }
    Ok(p)
}

// The record at a position, tested and added; the parser goes on at the position behind it.
fn read_record(p: Parsed, s: &[u8], at: usize) -> Result<Taken, Cause>
    requires part_read { PartRead p }
    requires at_in_bounds { at < length s.now }
    ensures { (k : PartRead p) → result ≡ taken (fault_at s.now at k.sheet) (behind at (step_at s.now at)) (kind_at s.now at) (payload_at s.now at) k.sheet }
{
    let found = record_at(s, at);
    let step = found.step;
    let Step::Record { kind, start, len } = step else {
        return Err(Cause::CutShort);
    };
    take_record(p, s, kind, start, len, found.behind)
}

// A record that is not cut short, tested against the sheet so far and added to it; the next one starts at `next`.
fn take_record(
    p: Parsed,
    s: &[u8],
    kind: usize,
    start: usize,
    len: usize,
    next: usize,
) -> Result<Taken, Cause>
    requires part_read { PartRead p }
    requires len_in_bounds { start + len ≤ length s.now }
    ensures { (k : PartRead p) → result ≡ taken (cause k.sheet kind (take len (drop start s.now))) next kind (take len (drop start s.now)) k.sheet }
{
    if is_misplaced(p, kind) {
        return Err(Cause::Misplaced);
    }
    if is_wrong_length(kind, len) {
        return Err(Cause::WrongLength);
    }
    let q = payload_of(s, start, len);
    fault(p, kind, q)?;
    Ok(Taken {
        next,
        sheet: added(p, kind, q),
    })
}

// The payload that a record's start and length say.
fn payload_of(s: &[u8], start: usize, len: usize) -> Payload
    requires len_in_bounds { start + len ≤ length s.now }
    requires le_len { (1 ≤ len) × (len ≤ 3) }
    ensures { payload_bytes result ≡ take len (drop start s.now) }
{
    Payload {
        len,
        b0: byte_or(s, start, len, 0),
        b1: byte_or(s, start, len, 1),
        b2: byte_or(s, start, len, 2),
    }
}

// The byte of a payload at a place, MISSING where the payload ends before it.
fn byte_or(s: &[u8], start: usize, len: usize, k: usize) -> u8
    requires { start + len ≤ length s.now }
    ensures { result ≡ get_or (take len (drop start s.now)) k missing }
{
    if k < len { s[start + k] } else { MISSING }
}
