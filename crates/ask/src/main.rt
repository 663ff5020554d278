// Answers questions, one a line of standard input, with one line each on standard output. All whole lines that were read are answered
// before more is read. The program stops at the end of the input and, with a line on standard error, at the first read or write that fails.
#![tactic(auto)]

ghost use Rattle.std.specs.Prelude.{◌≤◌, IfOk, IfSome, length};
ghost use Rattle.questions.specs.Questions.{answer_room};

use prelude::{copy, lesser};
use questions::ANSWER_ROOM;
use std::io::{Read, Write};

// A line that is being read: two characters more than a line may have, so that one that is too long shows even where its last
// character is a carriage return. What is longer is cut, which changes no answer (`cut_reply` of replies/proofs/LineEnds.antt).
const HELD: usize = 262146;

// How much is read at once.
const PART: usize = 65536;

// Why the program stops before the end of the input.
#[derive(Clone, Copy, Debug, PartialEq, Eq)]
enum Failure {
    Read,
    Write,
}

// Puts a part behind what is held of a line, as much of it as there is room for, and gives how much is held then.
fn append(line: &mut [u8], held: usize, part: &[u8]) -> usize
    requires { held ≤ length line.old }
    ensures { result ≤ length line.old }
{
    let fits = lesser(part.len(), line.len() - held);
    held + copy(&part[..fits], &mut line[held..])
}

// Answers a line that is held.
fn answer_held<W: Write>(to: &mut W, line: &[u8], out: &mut [u8]) -> Result<(), Failure>
    requires { answer_room ≤ length out.old }
{
    let n = replies::answer(line, out);
    to.write_all(&out[..n]).map_err(|_| Failure::Write)
}

// Answers the lines that end in a part of the input, and holds what is behind the last line feed: how much is held then.
fn take_lines<W: Write>(
    to: &mut W,
    part: &[u8],
    line: &mut [u8],
    before: usize,
    out: &mut [u8],
) -> Result<usize, Failure>
    requires { (before ≤ length line.old) × (answer_room ≤ length out.old) }
    ensures { IfOk result (λ held. held ≤ length line.old) }
{
    let mut held = before;
    let mut rest = part;
    while let Some(end) = rest.iter().position(|b| *b == b'\n') {
        held = append(line, held, &rest[..end]);
        answer_held(to, &line[..held], out)?;
        held = 0;
        rest = &rest[end + 1..];
    }
    Ok(append(line, held, rest))
}

// Reads once, and answers the lines that end in what was read, or, at the end of the input, a last line without a line feed. Gives how much
// is held then, and nothing at the end of the input.
fn turn<R: Read, W: Write>(
    input: &mut R,
    to: &mut W,
    line: &mut [u8; HELD],
    held: usize,
    out: &mut [u8; ANSWER_ROOM],
) -> Result<Option<usize>, Failure>
    requires { held ≤ 262146 }
    ensures { IfOk result (λ more. IfSome more (λ rest. rest ≤ 262146)) }
{
    let mut part = [0u8; PART];
    let n = input.read(&mut part).map_err(|_| Failure::Read)?;
    if n == 0 {
        if 0 < held {
            answer_held(to, &line[..held], out)?;
        }
        return Ok(None);
    }
    let rest = take_lines(to, &part[..n], line, held, out)?;
    Ok(Some(rest))
}

// What the program says of a failure.
fn message(failure: Failure) -> &'static [u8] {
    match failure {
        Failure::Read => b"ask: cannot read standard input\n",
        Failure::Write => b"ask: cannot write standard output\n",
    }
}

fn main(rt: HostRuntime) {
    let mut input = rt.stdin();
    let mut to = rt.stdout();
    let mut errors = rt.stderr();
    let mut line = [0u8; HELD];
    let mut out = [0u8; ANSWER_ROOM];
    let mut held: usize = 0;
    for _ in 0..u64::MAX {
        match turn(&mut input, &mut to, &mut line, held, &mut out) {
            Ok(Some(rest)) => held = rest,
            Ok(None) => return,
            Err(failure) => {
                let _ = errors.write_all(message(failure));
                return;
            }
        }
    }
}
