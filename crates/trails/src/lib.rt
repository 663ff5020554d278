// The question walk of `ask`: a line that has its verb is answered in front of a lent buffer, by the codes that walk writes into a trail; the answer line's
// length is given back.
#![tactic(auto)]

ghost use Rattle.std.specs.Prelude.{◌≤◌, length};
ghost use Rattle.prelude.specs.Pasted.{Wrote};
ghost use Rattle.walk.specs.Walk.{outcome};
ghost use Rattle.questions.specs.Questions.{most_decoded, answer_room};
ghost use Rattle.trails.specs.Trails.{walk_line, walk_reply};
ghost use Rattle.trails.specs.Parts.{WalkNumbers};

use lines::{complaint_line, refusal_line};
use prelude::lesser;
use questions::MOST_DECODED;
use words::{decode, number, word, wrong_with};

// The numbers of a walk: the field, the starting code, how many bytes the trail has, and where the codes start in it.
#[derive(Clone, Copy)]
struct Numbers {
    sort: usize,
    code: usize,
    room: usize,
    start: usize,
}

// walk SHEET TABLES FIELD CODE EVENTS TRAILLEN START
pub fn walk_question(line: &[u8], out: &mut [u8]) -> usize
    requires { (length line.now ≤ 262144) × (answer_room ≤ length out.old) }
    ensures { Wrote out.old 0 (walk_reply line.now) out.new result }
{
    if let Err(wrong) = wrong_with(line, b"bbnnbnn") {
        return complaint_line(out, wrong);
    }
    let mut sheet = [0u8; MOST_DECODED];
    let mut tables = [0u8; MOST_DECODED];
    let mut events = [0u8; MOST_DECODED];
    let n = decode(word(line, 1), &mut sheet);
    let m = decode(word(line, 2), &mut tables);
    let k = decode(word(line, 5), &mut events);
    let w = walk_numbers(line);
    walk_with(&sheet[..n], &tables[..m], &events[..k], w, out)
}

// The numbers of a line that asks walk.
fn walk_numbers(line: &[u8]) -> Numbers
    ensures { WalkNumbers line.now result }
{
    let sort = number(word(line, 3));
    let code = number(word(line, 4));
    let room = number(word(line, 6));
    let start = number(word(line, 7));
    Numbers {
        sort,
        code,
        room,
        start,
    }
}

// Asks walk with a trail of this length; what a trail has in front beyond the bytes that a line can want makes no difference.
fn walk_with(sheet: &[u8], tables: &[u8], events: &[u8], w: Numbers, out: &mut [u8]) -> usize
    requires { (length events.now ≤ most_decoded) × (answer_room ≤ length out.old) }
    ensures { Wrote out.old 0 (walk_line (outcome sheet.now tables.now w.sort w.code events.now w.room w.start)) out.new result }
{
    let room = w.room;
    let start = w.start;
    let mut trail = [0u8; MOST_DECODED];
    let lent = lesser(room, MOST_DECODED);
    let cut = lesser(start, room - lent);
    walk_into(
        sheet,
        tables,
        w.sort,
        w.code,
        events,
        &mut trail[..lent],
        start - cut,
        out,
    )
}

// Asks walk with this trail, and shows the codes that stand in it then.
fn walk_into(
    sheet: &[u8],
    tables: &[u8],
    sort: usize,
    code: usize,
    events: &[u8],
    trail: &mut [u8],
    start: usize,
    out: &mut [u8],
) -> usize
    requires { (length trail.old ≤ most_decoded) × (answer_room ≤ length out.old) }
    ensures { Wrote out.old 0 (walk_line (outcome sheet.now tables.now sort code events.now (length trail.old) start)) out.new result }
{
    let answer = walk::walk(sheet, tables, sort, code, events, trail, start);
    match answer {
        Ok(length) => {
            let end = start + length;
            text::bytes_line(out, b"trail", length, &trail[start..end])
        }
        Err(refusal) => refusal_line(out, refusal),
    }
}
