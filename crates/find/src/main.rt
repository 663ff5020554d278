// The find program: reads a sheet from standard input, and prints its answer or why it is refused. It stops at the first write that fails, and
// says on standard error when standard input cannot be read or standard output cannot be written.
#![tactic(auto)]

ghost use Rattle.std.specs.Prelude.{◌≤◌, IfOk, length};
ghost use Rattle.prelude.specs.Limits.{most_symbols};
ghost use Rattle.sheet.specs.Verdict.{ReadFrom};
ghost use Rattle.find.specs.Parts.{Printable, Stretches};

use find_at::MOST_TABLES;
use layout::Parsed;
use prelude::refusal::Refusal;
use prelude::{MOST_SYMBOLS, MOST_TERMS, wide};
use std::io;
use std::io::{Read, Write};

// One byte more than a sheet may have, so that a longer one is refused.
const MOST_INPUT: usize = 4097;

// Room for the longest line, that of a table of 256 cells.
const MOST_LINE: usize = 2048;

fn main(rt: HostRuntime) {
    let mut buffer = [0u8; MOST_INPUT];
    let mut codes = [0u8; MOST_TERMS];
    let mut tables = [0u8; MOST_TABLES];
    let mut line = [0u8; MOST_LINE];
    let mut input = rt.stdin();
    let mut out = rt.stdout();
    let mut errors = rt.stderr();
    let Ok(n) = read_input(&mut input, &mut buffer) else {
        let _ = errors.write_all(b"find: cannot read standard input\n");
        return;
    };
    if answer(&mut out, &buffer[..n], &mut codes, &mut tables, &mut line).is_err() {
        let _ = errors.write_all(b"find: cannot write standard output\n");
    }
}

// Reads standard input until the buffer is full or the input ends: how many bytes stand in front of the buffer.
fn read_input<R: Read>(input: &mut R, buffer: &mut [u8]) -> io::Result<usize>
    ensures { IfOk result (λ len. len ≤ length buffer.new) }
{
    let mut len: usize = 0;
    // Kept: each read says how far it came, no index is counted.
    while len < buffer.len() {
        let more = input.read(&mut buffer[len..])?;
        if more == 0 {
            return Ok(len);
        }
        len += more;
    }
    Ok(len)
}

// Finds, and prints what was found; the buffers are lent by the caller. Like each function below, it stops at the first write that fails.
fn answer<W: Write>(
    out: &mut W,
    sheet: &[u8],
    codes: &mut [u8],
    tables: &mut [u8],
    line: &mut [u8],
) -> io::Result<()>
    requires { 2048 ≤ length line.old }
{
    match sheet::parse(sheet) {
        Ok(p) => answer_parsed(out, p, codes, tables, line),
        Err(refusal) => print_refusal(out, refusal, line),
    }
}

// Finds for a sheet that has been parsed, and prints what was found.
fn answer_parsed<W: Write>(
    out: &mut W,
    p: Parsed,
    codes: &mut [u8],
    tables: &mut [u8],
    line: &mut [u8],
) -> io::Result<()>
    requires read { ReadFrom p }
    requires in_bounds { 2048 ≤ length line.old }
{
    match finder::in_turn(p, codes, tables) {
        Ok(sum) => print_answer(out, p, sum, tables, line),
        Err(refusal) => print_refusal(out, refusal, line),
    }
}

// Prints an answer: the sum, the sorts, the symbols. The tables stand in front of the buffer.
fn print_answer<W: Write>(
    out: &mut W,
    p: Parsed,
    sum: usize,
    buffer: &[u8],
    line: &mut [u8],
) -> io::Result<()>
    requires printable { Printable p buffer.now }
    requires in_bounds { 2048 ≤ length line.old }
{
    let k = text::found_line(line, sum);
    out.write_all(&line[..k])?;
    let sorts = p.sorts;
    print_sorts(out, &buffer[..sorts], line)?;
    let sizes = tables::sizes_of(sorts, buffer);
    let offsets = tables::extents(p, sizes);
    let symbols = p.symbols;
    print_symbols(out, symbols, offsets, buffer, line)
}

// Prints the size of each sort.
fn print_sorts<W: Write>(out: &mut W, sizes: &[u8], line: &mut [u8]) -> io::Result<()>
    requires { 2048 ≤ length line.old }
{
    for (s, size) in sizes.iter().enumerate() {
        let k = text::sort_line(line, s, wide(*size));
        out.write_all(&line[..k])?;
    }
    Ok(())
}

// Prints the table of each of n symbols, which stands from its offset to the next.
fn print_symbols<W: Write>(
    out: &mut W,
    n: usize,
    offsets: [usize; MOST_SYMBOLS + 1],
    tables: &[u8],
    line: &mut [u8],
) -> io::Result<()>
    requires n_le_most_symbols { n ≤ most_symbols }
    requires stretches { Stretches offsets n (length tables.now) }
    requires in_bounds { 2048 ≤ length line.old }
{
    for f in 0..n {
        let start = offsets[f];
        let end = offsets[f + 1];
        let k = text::symbol_line(line, f, &tables[start..end]);
        out.write_all(&line[..k])?;
    }
    Ok(())
}

// Prints the line of a refusal.
fn print_refusal<W: Write>(out: &mut W, r: Refusal, line: &mut [u8]) -> io::Result<()>
    requires { 2048 ≤ length line.old }
{
    let k = text::refused_line(line, wide(r.cause.number()), r.place);
    out.write_all(&line[..k])
}
