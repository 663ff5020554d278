// What a buffer that was lent holds.
use test_questions::slices::{first, rest};

// Whether a buffer starts with the first n wanted bytes and is untouched behind them. (Where fewer than n are wanted, it is not.)
pub(crate) fn written(buffer: &[u8], want: &[u8], n: usize, untouched: &[u8]) -> bool {
    check::same(first(buffer, n), first(want, n))
        && check::same(rest(buffer, n), rest(untouched, n))
}
