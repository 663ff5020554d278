// What `ask` prints for a line, whatever the line is: by its verb, the reply of the question.
#![tactic(auto)]

ghost use Rattle.std.specs.Prelude.{◌≤◌, ◌≡◌, length};
ghost use Rattle.prelude.specs.Pasted.{Wrote};
ghost use Rattle.questions.specs.Questions.{answer_room};
ghost use Rattle.replies.specs.Reply.{reply, without_return, asked, searched};

use bundlings::bundle_question;
use filings::fitted_question;
use findings::{find_question, findat_question};
use questions::{forced_question, group_question, judge_question, read_question, table_question};
use sizings::sizes_question;
use trails::walk_question;
use words::{same, word};

// The most characters that a line may have.
const MOST_CHARACTERS: usize = 262144;

// The answer line of a line, in front of the buffer: its length.
pub fn answer(line: &[u8], out: &mut [u8]) -> usize
    requires { answer_room ≤ length out.old }
    ensures { Wrote out.old 0 (reply line.now) out.new result }
{
    let s = without_return(line);
    if s.len() == 0 {
        return text::put(out, 0, b"? empty line\n");
    }
    if MOST_CHARACTERS < s.len() {
        return text::put(out, 0, b"? the line is too long\n");
    }
    answer_asked(s, out)
}

// The line without a carriage return at its end.
fn without_return(line: &[u8]) -> &[u8]
    ensures { result.now ≡ without_return line.now }
{
    let n = line.len();
    if n == 0 {
        return line;
    }
    if line[n - 1] == 13 {
        return &line[..n - 1];
    }
    line
}

// The answer to a line that has a verb.
// Kept: no `match` on the verb, here and below: it names the goal of an arm after its word, and the edits `another_verb`, `findat_by_another_word`
// and `bundle_by_another_word` change that word.
fn answer_asked(line: &[u8], out: &mut [u8]) -> usize
    requires { (length line.now ≤ 262144) × (answer_room ≤ length out.old) }
    ensures { Wrote out.old 0 (asked line.now) out.new result }
{
    let verb = word(line, 0);
    if same(verb, b"read") {
        return read_question(line, out);
    }
    if same(verb, b"judge") {
        return judge_question(line, out);
    }
    if same(verb, b"forced") {
        return forced_question(line, out);
    }
    if same(verb, b"group") {
        return group_question(line, out);
    }
    if same(verb, b"table") {
        return table_question(line, out);
    }
    if same(verb, b"walk") {
        return walk_question(line, out);
    }
    answer_searched(line, out)
}

// The same, where the verb is none of those that need no search.
fn answer_searched(line: &[u8], out: &mut [u8]) -> usize
    requires { (length line.now ≤ 262144) × (answer_room ≤ length out.old) }
    ensures { Wrote out.old 0 (searched line.now) out.new result }
{
    let verb = word(line, 0);
    if same(verb, b"find") {
        return find_question(line, out);
    }
    if same(verb, b"sizes") {
        return sizes_question(line, out);
    }
    if same(verb, b"findat") {
        return findat_question(line, out);
    }
    if same(verb, b"fitted") {
        return fitted_question(line, out);
    }
    if same(verb, b"bundle") {
        return bundle_question(line, out);
    }
    text::put(out, 0, b"? unknown verb\n")
}
