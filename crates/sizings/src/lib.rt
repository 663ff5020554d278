// The question sizes of `ask`: a line that has its verb is answered in front of a lent buffer, by the sizes that sizes writes into another; the answer
// line's length is given back.
#![tactic(auto)]

ghost use Rattle.std.specs.Prelude.{◌≤◌, ◌≡◌, length};
ghost use Rattle.prelude.specs.Limits.{most_sorts};
ghost use Rattle.prelude.specs.Pasted.{Wrote};
ghost use Rattle.logic.specs.Sheet.{Sheet};
ghost use Rattle.layout.specs.Layout.{accepted, reading};
ghost use Rattle.sizes.specs.Sizing.{outcome};
ghost use Rattle.questions.specs.Questions.{answer_room};
ghost use Rattle.sizings.specs.Sizings.{sizes_line, sizes_reply};

use lines::{complaint_line, refusal_line};
use prelude::{MOST_SORTS, lesser};
use questions::MOST_DECODED;
use words::{decode, number, word, wrong_with};

// sizes SHEET BUFLEN
pub fn sizes_question(line: &[u8], out: &mut [u8]) -> usize
    requires { (length line.now ≤ 262144) × (answer_room ≤ length out.old) }
    ensures { Wrote out.old 0 (sizes_reply line.now) out.new result }
{
    if let Err(wrong) = wrong_with(line, b"bn") {
        return complaint_line(out, wrong);
    }
    let mut sheet = [0u8; MOST_DECODED];
    let n = decode(word(line, 1), &mut sheet);
    let room = number(word(line, 2));
    sizes_with(&sheet[..n], room, out)
}

// Asks sizes with a buffer of this length; a longer one than a byte for each sort makes no difference.
fn sizes_with(sheet: &[u8], room: usize, out: &mut [u8]) -> usize
    requires { answer_room ≤ length out.old }
    ensures { Wrote out.old 0 (sizes_line (outcome sheet.now «room»)) out.new result }
{
    let mut buffer = [0u8; MOST_SORTS];
    let lent = lesser(room, MOST_SORTS);
    sizes_into(sheet, &mut buffer[..lent], out)
}

// Asks sizes with this buffer, and shows the sizes that stand in front of it then.
fn sizes_into(sheet: &[u8], buffer: &mut [u8], out: &mut [u8]) -> usize
    requires { (length buffer.old ≤ most_sorts) × (answer_room ≤ length out.old) }
    ensures { Wrote out.old 0 (sizes_line (outcome sheet.now (length buffer.old))) out.new result }
{
    let answer = sizes::sizes(sheet, buffer);
    match answer {
        Ok(sum) => {
            let many = sorts_of(sheet);
            text::bytes_line(out, b"sizes", sum, &buffer[..many])
        }
        Err(refusal) => refusal_line(out, refusal),
    }
}

// How many sorts an accepted sheet has.
fn sorts_of(sheet: &[u8]) -> usize
    ensures { (sh : Sheet) → reading sheet.now ≡ accepted sh → result ≡ length sh.bounds }
{
    match sheet::parse(sheet) {
        Ok(p) => p.sorts,
        Err(_) => 0,
    }
}
