// The lines that the programs print, written into a lent buffer.
#![tactic(auto)]

ghost use Rattle.std.specs.Prelude.{◌≡◌, [], ◌∷◌, ◌+◌, ◌*◌, ◌≤◌, ◌<◌, length};
ghost use Rattle.prelude.specs.Pasted.{Wrote};
ghost use Rattle.text.specs.Text.{decimal, spaced, line, sums_line, hex_digit, hex, shown, bytes_line, answer_line, found_word, refused_word, field_word, name_word};

// The line `found S` of an answer, S being the sum of the sizes: its length, and its bytes at the front of the buffer.
pub fn found_line(out: &mut [u8], sum: usize) -> usize
    requires { 2048 ≤ length out.old }
    ensures { Wrote out.old 0 (line found_word (sum ∷ [])) out.new result }
{
    number_line(out, b"found", sum)
}

// The line `found S CODES TABLES` of an answer whole.
pub fn answer_line(out: &mut [u8], sum: usize, codes: &[u8], tables: &[u8]) -> usize
    requires { 100 + (2 * length codes.now + 2 * length tables.now) ≤ length out.old }
    ensures { Wrote out.old 0 (answer_line sum codes.now tables.now) out.new result }
{
    let at = put(out, 0, b"found");
    let at = put_spaced(out, at, sum);
    let at = put_bytes(out, at, codes);
    let at = put_bytes(out, at, tables);
    put(out, at, b"\n")
}

// The line `refused N P` of a refusal.
pub fn refused_line(out: &mut [u8], number: usize, place: usize) -> usize
    requires { 2048 ≤ length out.old }
    ensures { Wrote out.old 0 (line refused_word (number ∷ place ∷ [])) out.new result }
{
    pair_line(out, b"refused", number, place)
}

// The line `field S N` of a sort and its size.
pub fn sort_line(out: &mut [u8], sort: usize, size: usize) -> usize
    requires { 2048 ≤ length out.old }
    ensures { Wrote out.old 0 (line field_word (sort ∷ size ∷ [])) out.new result }
{
    pair_line(out, b"field", sort, size)
}

// The line `name F C C ..` of a symbol and the cells of its table.
pub fn symbol_line(out: &mut [u8], symbol: usize, cells: &[u8]) -> usize
    requires { (2048 ≤ length out.old) × (length cells.now ≤ 256) }
    ensures { Wrote out.old 0 (line name_word (symbol ∷ cells.now)) out.new result }
{
    let at = put(out, 0, b"name");
    let at = put_spaced(out, at, symbol);
    let at = put_cells(out, at, cells);
    put(out, at, b"\n")
}

// The line `sums S S .. left L` of a bundle's answer.
pub fn sums_line(out: &mut [u8], sums: &[u8], left: usize) -> usize
    requires { (2048 ≤ length out.old) × (length sums.now ≤ 256) }
    ensures { Wrote out.old 0 (sums_line sums.now left) out.new result }
{
    let at = put(out, 0, b"sums");
    let at = put_cells(out, at, sums);
    let at = put(out, at, b" left");
    let at = put_spaced(out, at, left);
    put(out, at, b"\n")
}

// Writes a line of a word and a number, and gives its length.
pub fn number_line(out: &mut [u8], word: &[u8], n: usize) -> usize
    requires { (length word.now < 1000) × (2048 ≤ length out.old) }
    ensures { Wrote out.old 0 (line word.now (n ∷ [])) out.new result }
{
    let at = put(out, 0, word);
    let at = put_spaced(out, at, n);
    put(out, at, b"\n")
}

// Writes a line of a word and two numbers, and gives its length.
pub fn pair_line(out: &mut [u8], word: &[u8], a: usize, b: usize) -> usize
    requires { (length word.now < 1000) × (2048 ≤ length out.old) }
    ensures { Wrote out.old 0 (line word.now (a ∷ b ∷ [])) out.new result }
{
    let at = put(out, 0, word);
    let at = put_spaced(out, at, a);
    let at = put_spaced(out, at, b);
    put(out, at, b"\n")
}

// Writes a line of a word, a number and bytes, and gives its length.
pub fn bytes_line(out: &mut [u8], word: &[u8], number: usize, bytes: &[u8]) -> usize
    requires { (length word.now < 1000) × (2048 + 2 * length bytes.now ≤ length out.old) }
    ensures { Wrote out.old 0 (bytes_line word.now number bytes.now) out.new result }
{
    let at = put(out, 0, word);
    let at = put_spaced(out, at, number);
    let at = put_bytes(out, at, bytes);
    put(out, at, b"\n")
}

// Writes a word at a place, and gives the place behind it.
// Kept: a buffer and a place, here and below, since this is what each line's contract speaks of (`Wrote out.old 0 (..) out.new result`).
pub fn put(out: &mut [u8], at: usize, word: &[u8]) -> usize
    requires { at + length word.now ≤ length out.old }
    ensures { Wrote out.old at word.now out.new result }
{
    let n = prelude::copy(word, &mut out[at..]);
    at + n
}

// Writes the decimal digits of a number at a place, and gives the place behind them.
// Kept: no `write!`, which states of a slice no byte that it writes (`contents` of std's `Write`).
fn put_number(out: &mut [u8], at: usize, n: usize) -> usize
    requires { at + length (decimal n) ≤ length out.old }
    ensures { Wrote out.old at (decimal n) out.new result }
{
    if n < 10 {
        out[at] = 48 + (n % 10) as u8;
        at + 1
    } else {
        let end = put_number(out, at, n / 10);
        out[end] = 48 + (n % 10) as u8;
        end + 1
    }
}

// Writes a space and the decimal digits of a number, and gives the place behind them.
fn put_spaced(out: &mut [u8], at: usize, n: usize) -> usize
    requires { at + length (spaced (n ∷ [])) ≤ length out.old }
    ensures { Wrote out.old at (spaced (n ∷ [])) out.new result }
{
    let next = put(out, at, b" ");
    put_number(out, next, n)
}

// Writes each byte's number after a space, and gives the place behind them.
fn put_cells(out: &mut [u8], from: usize, cells: &[u8]) -> usize
    requires { from + 4 * length cells.now ≤ length out.old }
    ensures wrote { Wrote out.old from (spaced cells.now) out.new result }
    ensures short { result ≤ from + 4 * length cells.now }
{
    let mut at = from;
    // Kept: a range, whose start the edit `first_cell_lost` changes.
    for i in 0..cells.len() {
        at = put_spaced(out, at, cells[i] as usize);
    }
    at
}

// Writes a space and bytes as a word, and gives the place behind them.
fn put_bytes(out: &mut [u8], at: usize, s: &[u8]) -> usize
    requires { at + (2 + 2 * length s.now) ≤ length out.old }
    ensures { Wrote out.old at (32 ∷ shown s.now) out.new result }
{
    if s.is_empty() {
        return put(out, at, b" -");
    }
    let next = put(out, at, b" ");
    put_hex(out, next, s)
}

// Writes the hexadecimal digits of bytes, and gives the place behind them.
// Kept: not one function with `put_cells` over a closure, which would need what each writes as a parameter: two lines of loop are plainer.
fn put_hex(out: &mut [u8], from: usize, s: &[u8]) -> usize
    requires { from + 2 * length s.now ≤ length out.old }
    ensures { Wrote out.old from (hex s.now) out.new result }
{
    let mut at = from;
    for b in s {
        at = put_byte(out, at, *b);
    }
    at
}

// Writes the two hexadecimal digits of a byte, and gives the place behind them.
fn put_byte(out: &mut [u8], at: usize, b: u8) -> usize
    requires { at + 2 ≤ length out.old }
    ensures { Wrote out.old at (hex (b ∷ [])) out.new result }
{
    out[at] = hex_digit(b / 16);
    out[at + 1] = hex_digit(b % 16);
    at + 2
}

// The character of a digit below 16.
// Kept: no `char::from_digit`, which would be no plainer: it gives an `Option` of a `char`, and takes a `u32` and the base.
fn hex_digit(d: u8) -> u8
    requires { d < 16 }
    ensures { result ≡ hex_digit d }
{
    if d < 10 { 48 + d } else { 87 + d }
}
