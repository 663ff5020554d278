// Records one after the other over the caller's bytes: a record's head, the record step, and a thin reader.
#![tactic(auto)]

ghost use Rattle.std.specs.Prelude.{◌≡◌, ◌+◌, ◌<◌, length};
ghost use Rattle.records.specs.Record.{two_bytes};
ghost use Rattle.records.specs.Step.{step_at, behind, stepped};

use prelude::wide;

// What stands at a position of a sheet.
#[derive(Clone, Copy)]
pub enum Step {
    // a whole record: its kind, and its payload's start and length
    Record {
        kind: usize,
        start: usize,
        len: usize,
    },
    // a record whose head or payload is cut short
    Cut,
    // nothing: the end of the sheet, or past it
    End,
}

// What stands at a position, and the position behind it: the end of a whole record, else where it was.
#[derive(Clone, Copy)]
pub struct Stepped {
    pub step: Step,
    pub behind: usize,
}

// A sheet's bytes and a position in them: records are handed out one at a time, with no copy of the bytes.
#[derive(Clone, Copy)]
pub struct Reader<'a> {
    pub sheet: &'a [u8],
    pub at: usize,
}

// What a reader hands out: what stands at its position, and the reader behind it, over the same bytes.
#[derive(Clone, Copy)]
pub struct Handed<'a> {
    pub step: Step,
    pub rest: Reader<'a>,
}

// The record at a position and the position behind it by way of a reader, for every caller that holds the bytes and a number.
pub fn record_at(s: &[u8], at: usize) -> Stepped
    ensures { result ≡ stepped s.now at }
{
    let handed = next(reader_at(s, at));
    Stepped {
        step: handed.step,
        behind: handed.rest.at,
    }
}

// The record at the reader's position and the reader behind it: the reader is taken apart, and the record step does the work.
pub fn next<'a>(r: Reader<'a>) -> Handed<'a>
    ensures { (result.step ≡ step_at r.entry.sheet.now r.entry.at) × (result.rest.sheet ≡ r.entry.sheet) × (result.rest.at ≡ behind r.entry.at (step_at r.entry.sheet.now r.entry.at)) }
{
    let found = step_at(r.sheet, r.at);
    Handed {
        step: found.step,
        rest: Reader {
            sheet: r.sheet,
            at: found.behind,
        },
    }
}

// A reader of a sheet at a position.
pub fn reader_at<'a>(sheet: &'a [u8], at: usize) -> Reader<'a>
    ensures { (result.sheet ≡ sheet.entry) × (result.at ≡ at) }
{
    Reader { sheet, at }
}

// The record at a position, and the position behind it; at the end of the sheet and past it there is none.
pub fn step_at(s: &[u8], at: usize) -> Stepped
    ensures { result ≡ stepped s.now at }
{
    let n = s.len();
    if n <= at {
        return Stepped {
            step: Step::End,
            behind: at,
        };
    }
    if n - at < 4 {
        return Stepped {
            step: Step::Cut,
            behind: at,
        };
    }
    let len = two_bytes(s, at);
    if n - at - 4 < len {
        return Stepped {
            step: Step::Cut,
            behind: at,
        };
    }
    let kind = two_bytes(s, at + 2);
    let start = at + 4;
    Stepped {
        step: Step::Record { kind, start, len },
        behind: start + len,
    }
}

// A number of two bytes, little-endian.
fn two_bytes(s: &[u8], i: usize) -> usize
    requires { i + 1 < length s.now }
    ensures { (result ≡ two_bytes s.now i) × (result < 65536) }
{
    wide(s[i]) + 256 * wide(s[i + 1])
}
