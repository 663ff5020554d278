// The question "walk": the codes that a list of events leads through, read from tables one event at a time.
#![tactic(auto)]

ghost use Rattle.std.specs.Prelude.{ℕ, ◌<◌, ◌+◌, ◌≡◌, true, ltb, length, IfOk};
ghost use Rattle.logic.specs.Sheet.{Sheet};
ghost use Rattle.tables.specs.Layout.{decoded};
ghost use Rattle.tables.specs.Parts.{Packs, Limited};
ghost use Rattle.walk.specs.Walk.{walk, stays_in, all_stay, walkable, walking, trail_after};
ghost use Rattle.walk.specs.Parts.{admitted};

use layout::Parsed;
use prelude::refusal::{Cause, Refusal};
use prelude::{MISSING, wide};

// Walk: the code after each event, from the starting code on, written into the trail from the start on. It gives how many were written, or the
// refusal's number and place.
pub fn walk(
    sheet: &[u8],
    tables: &[u8],
    sort: usize,
    code: usize,
    events: &[u8],
    trail: &mut [u8],
    start: usize,
) -> Result<usize, Refusal>
    ensures result { result ≡ walking sheet.now tables.now sort code events.now (length trail.old) start }
    ensures trail { trail.new ≡ trail_after sheet.now tables.now sort code events.now trail.old start }
{
    let p = sheet::parse(sheet)?;
    let length = events.len();
    if is_short(trail.len(), start, length) {
        return Err(Cause::ShortBuffer.at(0));
    }
    admitted(p, tables, sort, code, events)?;
    let end = start + length;
    write_walk(p, tables, code as u8, events, &mut trail[start..end]);
    Ok(length)
}

// Cause 10: the start is past the trail's end, or fewer bytes than events follow it.
fn is_short(room: usize, start: usize, many: usize) -> bool
    ensures { result ≡ ltb room (start + many) }
{
    if room < start {
        return true;
    }
    room - start < many
}

// The causes 12 and 15: neither applies, or the first that does is the refusal.
fn admitted(p: Parsed, t: &[u8], sort: usize, code: usize, events: &[u8]) -> Result<(), Refusal>
    requires { Limited p }
    ensures tests { (sh : Sheet) → Packs sh p → result ≡ admitted sh t.now sort code events.now }
    ensures code { IfOk result (λ u. code < 256) }
{
    if !tables::well_laid(p, t) {
        return Err(Cause::IllLaid.at(0));
    }
    if !is_walkable(p, t, sort, code, events) {
        return Err(Cause::NoWalk.at(0));
    }
    Ok(())
}

// Cause 15 does not apply: the sort is there, the starting code is below its size, and every event stays in it.
fn is_walkable(p: Parsed, t: &[u8], sort: usize, code: usize, events: &[u8]) -> bool
    requires { Limited p }
    ensures { ((sh : Sheet) → Packs sh p → result ≡ walkable sh t.now sort code events.now) × (result ≡ true → code < 256) }
{
    if p.sorts <= sort {
        return false;
    }
    let sizes = tables::sizes_of(p.sorts, t);
    if wide(sizes[sort]) <= code {
        return false;
    }
    all_stay(p, sort, events)
}

// Every event stays in the sort.
fn all_stay(p: Parsed, sort: usize, events: &[u8]) -> bool
    requires { Limited p }
    ensures { (sh : Sheet) → Packs sh p → result ≡ all_stay sh sort events.now }
{
    for event in events {
        if !stays_in(p, sort, wide(*event)) {
            return false;
        }
    }
    true
}

// The symbol of an event is there, takes just the sort and gives it.
fn stays_in(p: Parsed, sort: usize, symbol: usize) -> bool
    requires { Limited p }
    ensures { (sh : Sheet) → Packs sh p → result ≡ stays_in sh sort symbol }
{
    if p.symbols <= symbol {
        return false;
    }
    if wide(p.result[symbol]) != sort {
        return false;
    }
    if wide(p.param0[symbol]) != sort {
        return false;
    }
    p.param1[symbol] == MISSING
}

// Writes the walk from a code on, which is the whole stretch: a byte for each event.
fn write_walk(p: Parsed, t: &[u8], code: u8, events: &[u8], out: &mut [u8])
    requires { Limited p × (length out.old ≡ length events.now) }
    ensures { (sh : Sheet) (sort : ℕ) → Packs sh p → all_stay sh sort events.now ≡ true → out.new ≡ walk (decoded sh t.now) code events.now }
{
    let sizes = tables::sizes_of(p.sorts, t);
    let offsets = tables::extents(p, sizes);
    let param1 = p.param1;
    let mut c = code;
    for (k, event) in events.iter().enumerate() {
        let next = tables::entry_of(param1, sizes, offsets, t, wide(*event), wide(c), 0);
        out[k] = next;
        c = next;
    }
}
