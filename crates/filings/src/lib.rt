// The question fitted of `ask`: a line that has its verb is answered in front of a lent buffer, by the sheet that fitted writes into another; the answer
// line's length is given back.
#![tactic(auto)]

ghost use Rattle.std.specs.Prelude.{◌≤◌, length};
ghost use Rattle.prelude.specs.Limits.{most_written_bytes};
ghost use Rattle.prelude.specs.Pasted.{Wrote};
ghost use Rattle.fitted.specs.Filing.{outcome};
ghost use Rattle.questions.specs.Questions.{answer_room};
ghost use Rattle.filings.specs.Filings.{fitted_line, fitted_reply};

use lines::{complaint_line, refusal_line};
use prelude::{MOST_WRITTEN_BYTES, lesser};
use questions::MOST_DECODED;
use words::{decode, number, word, wrong_with};

// fitted SHEET BUFLEN
pub fn fitted_question(line: &[u8], out: &mut [u8]) -> usize
    requires { (length line.now ≤ 262144) × (answer_room ≤ length out.old) }
    ensures { Wrote out.old 0 (fitted_reply line.now) out.new result }
{
    if let Err(wrong) = wrong_with(line, b"bn") {
        return complaint_line(out, wrong);
    }
    let mut sheet = [0u8; MOST_DECODED];
    let n = decode(word(line, 1), &mut sheet);
    let room = number(word(line, 2));
    fitted_with(&sheet[..n], room, out)
}

// Asks fitted with a buffer of this length; a longer one than the longest sheet makes no difference.
fn fitted_with(sheet: &[u8], room: usize, out: &mut [u8]) -> usize
    requires { answer_room ≤ length out.old }
    ensures { Wrote out.old 0 (fitted_line (outcome sheet.now «room»)) out.new result }
{
    let mut buffer = [0u8; MOST_WRITTEN_BYTES];
    let lent = lesser(room, MOST_WRITTEN_BYTES);
    fitted_into(sheet, &mut buffer[..lent], out)
}

// Asks fitted with this buffer, and shows the sheet that stands in front of it then.
fn fitted_into(sheet: &[u8], buffer: &mut [u8], out: &mut [u8]) -> usize
    requires { (length buffer.old ≤ most_written_bytes) × (answer_room ≤ length out.old) }
    ensures { Wrote out.old 0 (fitted_line (outcome sheet.now (length buffer.old))) out.new result }
{
    let answer = fitted::fitted(sheet, buffer);
    match answer {
        Ok(length) => text::bytes_line(out, b"sheet", length, &buffer[..length]),
        Err(refusal) => refusal_line(out, refusal),
    }
}
