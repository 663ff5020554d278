// The questions of `ask` that lend no buffer and ask no search: read, judge, forced, group and table of a name, one function for each verb (walk stands in
// trails, sizes in sizings, find and findat in findings, fitted in filings, bundle in bundlings).
// Each answers a line that has its verb, in front of a lent buffer, and gives the answer line's length.
#![tactic(auto)]

ghost use Rattle.std.specs.Prelude.{◌≤◌, length};
ghost use Rattle.prelude.specs.Pasted.{Wrote};
ghost use Rattle.questions.specs.Questions.{answer_room, read_reply, judge_reply, forced_reply, group_reply, table_reply};

use lines::{
    complaint_line, forcing_line, grouping_line, judgement_line, stretch_line, verdict_line,
};
use words::{decode, number, word, wrong_with};

// The most bytes that the words of a line can stand for.
pub const MOST_DECODED: usize = 131072;

// Room for every answer line: the longest is that of walk, which shows two digits for each event.
pub const ANSWER_ROOM: usize = 264192;

// Kept: the most characters of a line and the room of its buffer stand in each question's contract, here and in the crates above, and in no type:
// docs/CONTRACTS.md names these functions, so that callers may go on to lend them any slices. The test of the words stands in each too: a function
// that takes the rest as a closure would be no plainer than its three lines.

// read SHEET
pub fn read_question(line: &[u8], out: &mut [u8]) -> usize
    requires { (length line.now ≤ 262144) × (answer_room ≤ length out.old) }
    ensures { Wrote out.old 0 (read_reply line.now) out.new result }
{
    if let Err(wrong) = wrong_with(line, b"b") {
        return complaint_line(out, wrong);
    }
    let mut sheet = [0u8; MOST_DECODED];
    let n = decode(word(line, 1), &mut sheet);
    verdict_line(out, sheet::read(&sheet[..n]))
}

// judge SHEET TABLES
pub fn judge_question(line: &[u8], out: &mut [u8]) -> usize
    requires { (length line.now ≤ 262144) × (answer_room ≤ length out.old) }
    ensures { Wrote out.old 0 (judge_reply line.now) out.new result }
{
    if let Err(wrong) = wrong_with(line, b"bb") {
        return complaint_line(out, wrong);
    }
    let mut sheet = [0u8; MOST_DECODED];
    let mut tables = [0u8; MOST_DECODED];
    let n = decode(word(line, 1), &mut sheet);
    let m = decode(word(line, 2), &mut tables);
    judgement_line(out, judge::judge(&sheet[..n], &tables[..m]))
}

// forced SHEET A B
pub fn forced_question(line: &[u8], out: &mut [u8]) -> usize
    requires { (length line.now ≤ 262144) × (answer_room ≤ length out.old) }
    ensures { Wrote out.old 0 (forced_reply line.now) out.new result }
{
    if let Err(wrong) = wrong_with(line, b"bnn") {
        return complaint_line(out, wrong);
    }
    let mut sheet = [0u8; MOST_DECODED];
    let n = decode(word(line, 1), &mut sheet);
    let a = number(word(line, 2));
    let b = number(word(line, 3));
    forcing_line(out, forced::forced(&sheet[..n], a, b))
}

// group SHEET E
pub fn group_question(line: &[u8], out: &mut [u8]) -> usize
    requires { (length line.now ≤ 262144) × (answer_room ≤ length out.old) }
    ensures { Wrote out.old 0 (group_reply line.now) out.new result }
{
    if let Err(wrong) = wrong_with(line, b"bn") {
        return complaint_line(out, wrong);
    }
    let mut sheet = [0u8; MOST_DECODED];
    let n = decode(word(line, 1), &mut sheet);
    let e = number(word(line, 2));
    grouping_line(out, group::group(&sheet[..n], e))
}

// table SHEET TABLES NAME
pub fn table_question(line: &[u8], out: &mut [u8]) -> usize
    requires { (length line.now ≤ 262144) × (answer_room ≤ length out.old) }
    ensures { Wrote out.old 0 (table_reply line.now) out.new result }
{
    if let Err(wrong) = wrong_with(line, b"bbn") {
        return complaint_line(out, wrong);
    }
    let mut sheet = [0u8; MOST_DECODED];
    let mut tables = [0u8; MOST_DECODED];
    let n = decode(word(line, 1), &mut sheet);
    let m = decode(word(line, 2), &mut tables);
    let name = number(word(line, 3));
    let span = judge::table_span(&sheet[..n], &tables[..m], name);
    stretch_line(out, span.start, span.end - span.start)
}
