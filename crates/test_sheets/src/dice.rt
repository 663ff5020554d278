// Random numbers from a fixed seed.

// The next number out of n: the upper 16 bits of the new state modulo n, or 0 where there is nothing to choose from.
pub fn pick(state: &mut u64, n: usize) -> usize {
    let s = advanced(*state);
    *state = s;
    if n == 0 {
        return 0;
    }
    upper(s) % n
}

// The generator's step, wrapped to 32 bits.
fn advanced(state: u64) -> u64 {
    ((state % 4294967296) * 1664525 + 1013904223) % 4294967296
}

fn upper(state: u64) -> usize {
    ((state / 65536) % 65536) as usize
}
