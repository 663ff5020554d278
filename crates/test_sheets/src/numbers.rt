// Arithmetic that no caller has to bound: all numbers of the trial are far below the moduli that are taken here.
ghost use Rattle.std.specs.Prelude.{◌≡◌, ◌<◌, ◌≤◌};

// A byte as a number.
pub fn wide(x: u8) -> usize
    ensures { (result ≡ x) × (result < 256) }
{
    usize::from(x)
}

// A number as a byte.
pub fn byte(x: usize) -> u8 {
    (x % 256) as u8
}

// The sum of two numbers below 2^32.
pub fn plus(a: usize, b: usize) -> usize {
    (a % 4294967296) + (b % 4294967296)
}

// The product of a number below 2^24 and one below 2^8.
pub fn times(a: usize, b: usize) -> usize {
    (a % 16777216) * (b % 256)
}

pub fn larger(a: usize, b: usize) -> usize
    ensures { b ≤ result }
{
    a.max(b)
}

pub fn smaller(a: usize, b: usize) -> usize
    ensures { result ≤ b }
{
    a.min(b)
}

// The difference, 0 where the second number is the larger.
pub fn minus(a: usize, b: usize) -> usize {
    a.saturating_sub(b)
}
