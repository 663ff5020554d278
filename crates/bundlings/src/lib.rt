// The question bundle of `ask`: a line that has its verb is answered in front of a lent buffer; the answer line's length is given back.
#![tactic(auto)]

ghost use Rattle.std.specs.Prelude.{◌≤◌, length};
ghost use Rattle.prelude.specs.Pasted.{Wrote};
ghost use Rattle.questions.specs.Questions.{answer_room};
ghost use Rattle.bundlings.specs.Bundlings.{bundling_line, bundle_reply};

use bundle::Shares;
use lines::{complaint_line, refusal_line};
use prelude::refusal::Refusal;
use prelude::wide;
use questions::MOST_DECODED;
use words::{decode, number, word, wrong_with};

// bundle BUNDLE LIMIT
pub fn bundle_question(line: &[u8], out: &mut [u8]) -> usize
    requires { (length line.now ≤ 262144) × (answer_room ≤ length out.old) }
    ensures { Wrote out.old 0 (bundle_reply line.now) out.new result }
{
    if let Err(wrong) = wrong_with(line, b"bl") {
        return complaint_line(out, wrong);
    }
    let mut sheets = [0u8; MOST_DECODED];
    let n = decode(word(line, 1), &mut sheets);
    let limit = number(word(line, 2));
    bundling_line(out, bundle::bundle(&sheets[..n], limit as u8))
}

// The answer line of bundle: the sums and what is left, or the refusal.
fn bundling_line(out: &mut [u8], answer: Result<Shares, Refusal>) -> usize
    requires { 2048 ≤ length out.old }
    ensures { Wrote out.old 0 (bundling_line answer) out.new result }
{
    match answer {
        Ok(shares) => text::sums_line(out, &shares.sums, wide(shares.left)),
        Err(r) => refusal_line(out, r),
    }
}
