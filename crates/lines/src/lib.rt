// The answer lines of `ask`: one for each answer that a question can have, written in front of a lent buffer. Each function gives the line's
// length.
#![tactic(auto)]

ghost use Rattle.std.specs.Prelude.{◌≤◌, length};
ghost use Rattle.prelude.specs.Pasted.{Wrote};
ghost use Rattle.prelude.specs.Causes.{number_of};
ghost use Rattle.lines.specs.Lines.{refusal_line, complaint_line, verdict_line, judgement_line, forcing_line, grouping_line, stretch_line};

use prelude::refusal::Refusal;
use prelude::wide;
use tables::Judgement;
use words::Complaint;

// What is wrong with a question.
pub fn complaint_line(out: &mut [u8], c: Complaint) -> usize
    requires { 2048 ≤ length out.old }
    ensures { Wrote out.old 0 (complaint_line c) out.new result }
{
    match c {
        Complaint::TooFew => text::put(out, 0, b"? too few words\n"),
        Complaint::TooMany => text::put(out, 0, b"? too many words\n"),
        Complaint::NotHexadecimal(k) => text::number_line(out, b"? not hexadecimal: word", k),
        Complaint::OddDigits(k) => {
            text::number_line(out, b"? an odd number of hexadecimal digits: word", k)
        }
        Complaint::NotNumber(k) => text::number_line(out, b"? not a number: word", k),
        Complaint::AboveByte(k) => text::number_line(out, b"? above 255: word", k),
    }
}

// What any question answers where it is turned down.
pub fn refusal_line(out: &mut [u8], r: Refusal) -> usize
    requires { 2048 ≤ length out.old }
    ensures { Wrote out.old 0 (refusal_line (number_of r.cause) r.place) out.new result }
{
    text::refused_line(out, wide(r.cause.number()), r.place)
}

// The answer to read.
pub fn verdict_line(out: &mut [u8], v: Result<(), Refusal>) -> usize
    requires { 2048 ≤ length out.old }
    ensures { Wrote out.old 0 (verdict_line v) out.new result }
{
    match v {
        Ok(()) => text::put(out, 0, b"accepted\n"),
        Err(r) => refusal_line(out, r),
    }
}

// The answer to judge.
pub fn judgement_line(out: &mut [u8], j: Result<Judgement, Refusal>) -> usize
    requires { 2048 ≤ length out.old }
    ensures { Wrote out.old 0 (judgement_line j) out.new result }
{
    match j {
        Ok(Judgement::Fits) => text::put(out, 0, b"fits\n"),
        Ok(Judgement::OutOfBounds) => text::put(out, 0, b"out of bounds\n"),
        Ok(Judgement::Broken(k)) => text::number_line(out, b"broken", k),
        Err(r) => refusal_line(out, r),
    }
}

// The answer to forced.
pub fn forcing_line(out: &mut [u8], f: Result<bool, Refusal>) -> usize
    requires { 2048 ≤ length out.old }
    ensures { Wrote out.old 0 (forcing_line f) out.new result }
{
    match f {
        Ok(true) => text::put(out, 0, b"yes\n"),
        Ok(false) => text::put(out, 0, b"no\n"),
        Err(r) => refusal_line(out, r),
    }
}

// The answer to group.
pub fn grouping_line(out: &mut [u8], g: Result<usize, Refusal>) -> usize
    requires { 2048 ≤ length out.old }
    ensures { Wrote out.old 0 (grouping_line g) out.new result }
{
    match g {
        Ok(k) => text::number_line(out, b"group", k),
        Err(r) => refusal_line(out, r),
    }
}

// The answer to table: where the stretch starts and how many bytes it has; none shows that the call is turned down.
pub fn stretch_line(out: &mut [u8], start: usize, many: usize) -> usize
    requires { 2048 ≤ length out.old }
    ensures { Wrote out.old 0 (stretch_line start many) out.new result }
{
    if many == 0 {
        return text::put(out, 0, b"empty\n");
    }
    text::pair_line(out, b"stretch", start, many)
}
