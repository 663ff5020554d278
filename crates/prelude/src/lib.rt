// What several crates use: the numbers of the format, a byte as a number, the lesser of two numbers, each number at its own place, bytes copied and
// searched, and the tests and lists of numbers that definitions are made of, with their laws (specs/, proofs/).
#![tactic(auto)]

pub mod refusal; // why a call is turned down

ghost use Rattle.std.specs.Prelude.{◌≡◌, ℕ, ◌<◌, ◌≤◌, ◌+◌, ◌++◌, min, length, drop};
ghost use Rattle.prelude.specs.Lists.{at};
ghost use Rattle.prelude.specs.Limits.{most_terms};
ghost use Rattle.prelude.specs.Bytes.{index_of, slice};

// The numbers of the format (docs/FORMAT.md, "The sheet"); specs/Limits.antt says the same for definitions and contracts.

// The most sorts, symbols, terms, literals and fills of a sheet.
pub const MOST_SORTS: usize = 8;

pub const MOST_SYMBOLS: usize = 64;

pub const MOST_TERMS: usize = 128;

pub const MOST_LITERALS: usize = 128;

pub const MOST_FILLS: usize = 64;

// The most codes of a sort, so that a table has at most 16 rows of 16 cells; the greatest total.
pub const MOST_CODES: usize = 16;

pub const MOST_TOTAL: usize = 128;

// The most bytes of an accepted sheet without fills, and so of every sheet that is written.
pub const MOST_WRITTEN_BYTES: usize = 2161;

// The same as bytes, to compare bytes with: the greatest size of a sort, and the greatest total.
pub const GREATEST_SIZE: u8 = MOST_CODES as u8;

pub const GREATEST_TOTAL: u8 = MOST_TOTAL as u8;

// How many values a byte has: an array of so many entries takes any byte as an index.
pub const BYTE_VALUES: usize = 256;

// Stands for a parameter or an argument that is not there; no sort, symbol or term has this number.
// Kept: a number and not an Option, here and below: `packed`, `view` and `Extends`, definitions under many theorems, have such numbers in columns of bytes.
pub const MISSING: u8 = 255;

// Stands for a code that is not decided; no sort has so many codes.
pub const UNDECIDED: u8 = 255;

// A byte as a number.
// Kept: a function, as are the two below, since each has wrong programs of its own; this one also says that a byte is below 256, as the library does not.
pub fn wide(x: u8) -> usize
    ensures { (result ≡ x) × (result < 256) }
{
    usize::from(x)
}

// The lesser of two numbers.
pub fn lesser(a: usize, b: usize) -> usize
    ensures { result ≡ min a b }
{
    a.min(b)
}

// Each number at its own place of an array, whatever it held.
pub fn own_numbers(array: [u8; MOST_TERMS]) -> [u8; MOST_TERMS]
    ensures { (k : ℕ) → k < most_terms → at result k ≡ k }
{
    let mut numbers = array;
    for k in 0..MOST_TERMS {
        numbers[k] = k as u8;
    }
    numbers
}

// Copies src to the front of dst, and gives how many bytes that was.
pub fn copy(src: &[u8], dst: &mut [u8]) -> usize
    requires { length src.now ≤ length dst.old }
    ensures { (result ≡ length src.now) × (dst.new ≡ src.now ++ drop (length src.now) dst.old) }
{
    let n = src.len();
    dst[..n].copy_from_slice(src);
    n
}

// The first place of a byte from one place on and before another one, which is given where the byte is not there.
pub fn find_byte(s: &[u8], from: usize, to: usize, b: u8) -> usize
    requires { (from ≤ to) × (to ≤ length s.now) }
    ensures { (result ≡ from + index_of b (slice from to s.now)) × (from ≤ result) × (result ≤ to) }
{
    for i in from..to {
        if s[i] == b {
            return i;
        }
    }
    to
}
