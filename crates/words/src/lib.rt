// The words of a line: which they are, what is wrong with them, and the bytes or the number that a word stands for.
#![tactic(auto)]

ghost use Rattle.std.specs.Prelude.{◌≡◌, ◌+◌, ◌*◌, ◌≤◌, ◌<◌, min, length, drop};
ghost use Rattle.prelude.specs.Tests.{same_list};
ghost use Rattle.words.specs.Words.{later_words, word_at, many, digit_of, is_numeral, number_of, largest, Decoded};
ghost use Rattle.words.specs.Complaints.{wrong_bytes, wrong_number, wrong_limit, wrong_word, wrong_words, complaint_of};

// The greatest limit.
const GREATEST_LIMIT: usize = 255;

// What is wrong with the words of a question; a word is named by its place, the verb being word 1.
#[derive(Clone, Copy, Debug, PartialEq, Eq)]
pub enum Complaint {
    TooFew,
    TooMany,
    NotHexadecimal(usize),
    OddDigits(usize),
    NotNumber(usize),
    AboveByte(usize),
}

// Word k of a line, the first being word 0; empty where the line has fewer.
pub fn word<'a>(line: &'a [u8], k: usize) -> &'a [u8]
    ensures word { result.now ≡ word_at line.now k }
    ensures short { length result.now ≤ length line.now }
{
    let mut from: usize = 0;
    for i in 0..k {
        from = behind_word(line, from);
    }
    let end = prelude::find_byte(line, from, line.len(), b' ');
    &line[from..end]
}

// What is wrong with the words of a line, whose kinds behind the verb are given: `b` for bytes, `n` for a number, `l` for a
// limit, which is a number from 0 to 255. Kept: a kind is a byte, since `wrong_with` (docs/CONTRACTS.md) takes each other byte as a number too.
#[tactic(auto, unfolding(crate::specs::Complaints::complaint_of))]
pub fn wrong_with(line: &[u8], kinds: &[u8]) -> Result<(), Complaint>
    ensures { result ≡ complaint_of kinds.now line.now }
{
    let n = count(line);
    if n <= kinds.len() {
        return Err(Complaint::TooFew);
    }
    if kinds.len() < n - 1 {
        return Err(Complaint::TooMany);
    }
    wrong_words(line, kinds)
}

// Whether two words are the same.
pub fn same(a: &[u8], b: &[u8]) -> bool
    ensures { result ≡ same_list a.now b.now }
{
    check::same(a, b)
}

// The bytes that a word of hexadecimal digits stands for: how many they are, the bytes standing in front of the buffer.
pub fn decode(word: &[u8], out: &mut [u8]) -> usize
    requires { length word.now ≤ 2 * length out.old }
    ensures { Decoded word.now out.new result }
{
    let many = word.len() / 2;
    for n in 0..many {
        out[n] = (digit(word[2 * n]) % 16) * 16 + digit(word[2 * n + 1]) % 16;
    }
    many
}

// The number that a word of decimal digits stands for; one that is too large counts as the largest.
pub fn number(word: &[u8]) -> usize
    ensures { result ≡ number_of word.now }
{
    word.iter().fold(0, |value, c| shifted(value, digit(*c)))
}

// Where what stands behind the first blank at or behind a place starts.
fn behind_word(line: &[u8], from: usize) -> usize
    requires { from ≤ length line.now }
    ensures { (result ≤ length line.now) × (drop result line.now ≡ later_words (drop from line.now)) }
{
    let end = prelude::find_byte(line, from, line.len(), b' ');
    if end == line.len() { end } else { end + 1 }
}

// How many words a line has: one more than blanks.
fn count(line: &[u8]) -> usize
    ensures { (result ≡ many line.now) × (1 ≤ result) }
{
    let mut blanks: usize = 0;
    for c in line {
        if *c == b' ' {
            blanks += 1;
        }
    }
    blanks + 1
}

// The value of a digit; 16 where the character is no digit.
// Kept: a number and no Option, since `decode` and `number` promise what such a character counts in a word (`digit_of`).
#[tactic(auto, unfolding(crate::specs::Words::digit_of))]
fn digit(c: u8) -> u8
    ensures { result ≡ digit_of c }
{
    match c {
        b'0'..=b'9' => c - 48,
        b'A'..=b'F' => c - 55,
        b'a'..=b'f' => c - 87,
        _ => 16,
    }
}

// One more decimal digit, cut at the largest number.
fn shifted(value: usize, d: u8) -> usize
    ensures { result ≡ min (value * 10 + d) largest }
{
    let more = d as usize;
    if (18446744073709551615 - more) / 10 < value {
        return 18446744073709551615;
    }
    value * 10 + more
}

// Whether a word is one digit or more, all below the base.
fn numeral(word: &[u8], base: u8) -> bool
    ensures { result ≡ is_numeral base word.now }
{
    !word.is_empty() && word.iter().all(|c| digit(*c) < base)
}

// What is wrong with word k where bytes are asked.
#[tactic(auto, unfolding(crate::specs::Complaints::wrong_bytes))]
fn wrong_bytes(k: usize, word: &[u8]) -> Result<(), Complaint>
    ensures { result ≡ wrong_bytes k word.now }
{
    if same(word, b"-") {
        return Ok(());
    }
    if !numeral(word, 16) {
        return Err(Complaint::NotHexadecimal(k));
    }
    if word.len() % 2 == 1 {
        return Err(Complaint::OddDigits(k));
    }
    Ok(())
}

// What is wrong with word k where a number is asked.
#[tactic(auto, unfolding(crate::specs::Complaints::wrong_number))]
fn wrong_number(k: usize, word: &[u8]) -> Result<(), Complaint>
    ensures { result ≡ wrong_number k word.now }
{
    if !numeral(word, 10) {
        return Err(Complaint::NotNumber(k));
    }
    Ok(())
}

// What is wrong with word k where a limit is asked.
#[tactic(auto, unfolding(crate::specs::Complaints::wrong_limit, crate::specs::Complaints::wrong_number))]
fn wrong_limit(k: usize, word: &[u8]) -> Result<(), Complaint>
    ensures { result ≡ wrong_limit k word.now }
{
    wrong_number(k, word)?;
    if GREATEST_LIMIT < number(word) {
        return Err(Complaint::AboveByte(k));
    }
    Ok(())
}

// What is wrong with word k where this kind is asked.
#[tactic(auto, unfolding(crate::specs::Complaints::wrong_word))]
fn wrong_word(kind: u8, k: usize, word: &[u8]) -> Result<(), Complaint>
    ensures { result ≡ wrong_word kind k word.now }
{
    match kind {
        b'b' => wrong_bytes(k, word),
        b'l' => wrong_limit(k, word),
        _ => wrong_number(k, word),
    }
}

// What is wrong with the first word that is not of its kind.
fn wrong_words(line: &[u8], kinds: &[u8]) -> Result<(), Complaint>
    ensures { result ≡ wrong_words kinds.now 1 line.now }
{
    for i in 0..kinds.len() {
        wrong_word(kinds[i], i + 2, word(line, i + 1))?;
    }
    Ok(())
}
