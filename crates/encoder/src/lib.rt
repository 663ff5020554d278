// Writes a sheet without fills from its parsed form: the records in the layout's order, in front of the caller's buffer.
#![tactic(auto)]

ghost use Rattle.std.specs.Prelude.{◌≡◌, cond, ℕ, ◌+◌, ◌≤◌, ◌<◌, List, eqb, length};
ghost use Rattle.prelude.specs.Limits.{most_sorts, most_symbols, most_terms, most_literals, most_total, most_written_bytes};
ghost use Rattle.prelude.specs.Lists.{collect};
ghost use Rattle.logic.specs.Sheet.{Sheet};
ghost use Rattle.layout.specs.Encode.{total_bytes};
ghost use Rattle.tables.specs.Parts.{Packs};
ghost use Rattle.encoder.specs.SheetWritten.{Stands, SheetWritten};
ghost use Rattle.prelude.specs.Pasted.{Wrote};
ghost use Rattle.encoder.specs.Parts.{there, record_bytes, Gives};

use layout::Parsed;
use prelude::{MISSING, copy, wide};

// A record of at most three payload bytes. A second or third one that is MISSING is not there.
#[derive(Clone, Copy)]
pub(crate) struct Record {
    pub kind: u8,
    pub b0: u8,
    pub b1: u8,
    pub b2: u8,
}

// Writes a sheet without fills in front of the buffer, record by record, and gives its length.
pub fn write_sheet(p: Parsed, out: &mut [u8]) -> usize
    requires { Stands p × (p.fills ≡ 0) × (most_written_bytes ≤ length out.old) }
    ensures { (sh : Sheet) → Packs sh p → SheetWritten sh out.old out.new result }
{
    let sorts = write_records(
        out,
        0,
        p.sorts,
        |s| Record {
            kind: 1,
            b0: p.floor[s],
            b1: p.ceiling[s],
            b2: MISSING,
        },
    );
    let symbols = write_records(
        out,
        sorts,
        p.symbols,
        |f| Record {
            kind: 2,
            b0: p.result[f],
            b1: p.param0[f],
            b2: p.param1[f],
        },
    );
    let terms = write_records(
        out,
        symbols,
        p.terms,
        |i| Record {
            kind: 3,
            b0: p.symbol[i],
            b1: p.arg0[i],
            b2: p.arg1[i],
        },
    );
    let literals = write_records(
        out,
        terms,
        p.literals,
        |k| Record {
            kind: statement_kind(p.equal[k]),
            b0: p.left[k],
            b1: p.right[k],
            b2: MISSING,
        },
    );
    write_total(p, out, literals)
}

// Writes a record for each number below n from a place on, and gives the place behind them.
fn write_records<F: Fn(usize) -> Record>(out: &mut [u8], start: usize, n: usize, make: F) -> usize
    requires callable { (i : ℕ) → i < n → F.pre make i }
    requires fit { (bytes : ℕ → List ℕ) × Gives (F.post make) n bytes × (start + length (collect n bytes) ≤ length out.old) }
    ensures { (bytes : ℕ → List ℕ) → Gives (F.post make) n bytes → Wrote out.old start (collect n bytes) out.new result }
{
    let mut end = start;
    for i in 0..n {
        let next = make(i);
        end = write_record(out, end, next);
    }
    end
}

// A sheet without a total has no record of it.
fn write_total(p: Parsed, out: &mut [u8], start: usize) -> usize
    requires { (p.total ≤ most_total) × (start + length (total_bytes p.total) ≤ length out.old) }
    ensures { Wrote out.old start (total_bytes p.total) out.new result }
{
    let total = p.total;
    if total == 0 {
        return start;
    }
    let r = Record {
        kind: 6,
        b0: total as u8,
        b1: MISSING,
        b2: MISSING,
    };
    write_record(out, start, r)
}

// The kind of a statement's record: 1 says same, 0 says differ.
// Kept: a number, since kinds are bytes of the format, and the edit `differ_written_as_same` changes one.
fn statement_kind(equal: u8) -> u8
    ensures { result ≡ cond (eqb equal 1) 4 5 }
{
    if equal == 1 {
        return 4;
    }
    5
}

// Writes one record at a place, and gives the place behind it.
fn write_record(out: &mut [u8], start: usize, r: Record) -> usize
    requires { start + length (record_bytes r) ≤ length out.old }
    ensures { Wrote out.old start (record_bytes r) out.new result }
{
    let len = payload_length(r.b1, r.b2);
    let bytes = [len, 0u8, r.kind, 0u8, r.b0, r.b1, r.b2];
    let n = wide(len) + 4;
    let end = start + n;
    copy(&bytes[..n], &mut out[start..end]);
    end
}

// How many bytes a payload has.
fn payload_length(b1: u8, b2: u8) -> u8
    ensures { result ≡ length (there b1 b2) + 1 }
{
    if b1 == MISSING {
        return 1;
    }
    if b2 == MISSING {
        return 2;
    }
    3
}
