// Sizes and find_at in turn against find: with the sizes that sizes gives, find_at gives what find gives, and leaves the same bytes in both buffers.
use crate::lent::{CODES, TABLES, number_of};
use crate::sized;
use test_questions::slices::first;
use test_questions::tally::{COUNTS, IN_TURN, expect};
use test_sheets::plan::{MOST_SORTS, PLAN, SORTS, count};

// Of a sheet that has an answer.
pub(crate) fn compare(p: [u8; PLAN], sheet: &[u8], counts: &mut [u64; COUNTS]) {
    let mut sizes = [0u8; MOST_SORTS];
    let sum = sized::asked(sheet, &mut sizes, MOST_SORTS);
    let right = alike(sheet, first(&sizes, count(p, SORTS)), sum);
    expect(right, IN_TURN, b"find_at after sizes", sheet, counts);
}

// Whether find_at with these sizes and find give this sum and leave the same bytes.
fn alike(sheet: &[u8], sizes: &[u8], sum: usize) -> bool {
    let mut codes = [90u8; CODES];
    let mut tables = [90u8; TABLES];
    let mut whole_codes = [90u8; CODES];
    let mut whole_tables = [90u8; TABLES];
    let at = number_of(find_at::find_at(sheet, sizes, &mut codes, &mut tables));
    let whole = number_of(finder::find(sheet, &mut whole_codes, &mut whole_tables));
    at == sum
        && whole == sum
        && check::same(&codes, &whole_codes)
        && check::same(&tables, &whole_tables)
}
