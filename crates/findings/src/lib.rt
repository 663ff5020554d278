// The questions find and findat of `ask`: a line that has one of these verbs is answered in front of a lent buffer, by the codes and the tables that find
// or find_at writes into two others; the answer line's length is given back.
#![tactic(auto)]

ghost use Rattle.std.specs.Prelude.{◌≤◌, ◌≡◌, length};
ghost use Rattle.logic.specs.Sheet.{Sheet};
ghost use Rattle.prelude.specs.Lists.{at};
ghost use Rattle.prelude.specs.Pasted.{Wrote};
ghost use Rattle.tables.specs.Layout.{extent};
ghost use Rattle.tables.specs.Parts.{Packs, Limited};
ghost use Rattle.find_at.specs.Found.{Outcome};
ghost use Rattle.find_at.specs.FindAt.{outcome_at};
ghost use Rattle.finder.specs.Find.{outcome};
ghost use Rattle.questions.specs.Questions.{answer_room};
ghost use Rattle.findings.specs.Findings.{find_line, find_reply, findat_reply};
ghost use Rattle.findings.specs.Parts.{Leaves};

use find_at::MOST_TABLES;
use layout::Parsed;
use lines::{complaint_line, refusal_line};
use prelude::refusal::Refusal;
use prelude::{MOST_TERMS, lesser};
use questions::MOST_DECODED;
use words::{decode, number, word, wrong_with};

// find SHEET CODELEN TABLELEN
pub fn find_question(line: &[u8], out: &mut [u8]) -> usize
    requires { (length line.now ≤ 262144) × (answer_room ≤ length out.old) }
    ensures { Wrote out.old 0 (find_reply line.now) out.new result }
{
    if let Err(wrong) = wrong_with(line, b"bnn") {
        return complaint_line(out, wrong);
    }
    let mut sheet = [0u8; MOST_DECODED];
    let n = decode(word(line, 1), &mut sheet);
    let codes = number(word(line, 2));
    let tables = number(word(line, 3));
    find_with(&sheet[..n], codes, tables, out)
}

// Finds with buffers of these lengths; a longer one than find can need makes no difference.
fn find_with(sheet: &[u8], many_codes: usize, many_tables: usize, out: &mut [u8]) -> usize
    requires { answer_room ≤ length out.old }
    ensures { Wrote out.old 0 (find_line (outcome sheet.now many_codes many_tables)) out.new result }
{
    let mut codes = [0u8; MOST_TERMS];
    let mut tables = [0u8; MOST_TABLES];
    let c = lesser(many_codes, MOST_TERMS);
    let t = lesser(many_tables, MOST_TABLES);
    find_into(sheet, &mut codes[..c], &mut tables[..t], out)
}

// Finds into these buffers, and shows what stands in them then.
fn find_into(sheet: &[u8], codes: &mut [u8], tables: &mut [u8], out: &mut [u8]) -> usize
    requires { (length codes.old ≤ 128) × (length tables.old ≤ 16392) × (answer_room ≤ length out.old) }
    ensures { Wrote out.old 0 (find_line (outcome sheet.now (length codes.old) (length tables.old))) out.new result }
{
    let found = finder::find(sheet, codes, tables);
    finding_line(sheet, found, codes, tables, out)
}

// findat SHEET SIZES CODELEN TABLELEN
pub fn findat_question(line: &[u8], out: &mut [u8]) -> usize
    requires { (length line.now ≤ 262144) × (answer_room ≤ length out.old) }
    ensures { Wrote out.old 0 (findat_reply line.now) out.new result }
{
    if let Err(wrong) = wrong_with(line, b"bbnn") {
        return complaint_line(out, wrong);
    }
    let mut sheet = [0u8; MOST_DECODED];
    let mut sizes = [0u8; MOST_DECODED];
    let n = decode(word(line, 1), &mut sheet);
    let m = decode(word(line, 2), &mut sizes);
    let codes = number(word(line, 3));
    let tables = number(word(line, 4));
    findat_with(&sheet[..n], &sizes[..m], codes, tables, out)
}

// Finds at these sizes, with buffers of these lengths; a longer one than find_at can need makes no difference.
// Kept: this and the next one are not find's over a closure: each contract has the outcome of its question, and the edits `long_buffer_always` and
// `long_codes_always` sit in one of the two each.
fn findat_with(
    sheet: &[u8],
    sizes: &[u8],
    many_codes: usize,
    many_tables: usize,
    out: &mut [u8],
) -> usize
    requires { answer_room ≤ length out.old }
    ensures { Wrote out.old 0 (find_line (outcome_at sheet.now sizes.now many_codes many_tables)) out.new result }
{
    let mut codes = [0u8; MOST_TERMS];
    let mut tables = [0u8; MOST_TABLES];
    let lent_codes = lesser(many_codes, MOST_TERMS);
    let lent_tables = lesser(many_tables, MOST_TABLES);
    findat_into(
        sheet,
        sizes,
        &mut codes[..lent_codes],
        &mut tables[..lent_tables],
        out,
    )
}

// Finds at these sizes into these buffers, and shows what stands in them then.
fn findat_into(
    sheet: &[u8],
    sizes: &[u8],
    codes: &mut [u8],
    tables: &mut [u8],
    out: &mut [u8],
) -> usize
    requires { (length codes.old ≤ 128) × (length tables.old ≤ 16392) × (answer_room ≤ length out.old) }
    ensures { Wrote out.old 0 (find_line (outcome_at sheet.now sizes.now (length codes.old) (length tables.old))) out.new result }
{
    let found = find_at::find_at(sheet, sizes, codes, tables);
    finding_line(sheet, found, codes, tables, out)
}

// The answer to find and findat: what was found on this sheet, and stands in front of these buffers.
fn finding_line(
    sheet: &[u8],
    found: Result<usize, Refusal>,
    codes: &[u8],
    tables: &[u8],
    out: &mut [u8],
) -> usize
    requires leaves { (o : Outcome) × Leaves sheet.now o found codes.now tables.now }
    requires codes_len_bound { (length codes.now ≤ 128) × (length tables.now ≤ 16392) × (answer_room ≤ length out.old) }
    ensures { (o : Outcome) → Leaves sheet.now o found codes.now tables.now → Wrote out.old 0 (find_line o) out.new result }
{
    match found {
        Err(r) => refusal_line(out, r),
        Ok(sum) => {
            let p = sheet::parse(sheet).unwrap();
            let many = p.terms;
            let end = written(p, tables);
            text::answer_line(out, sum, &codes[..many], &tables[..end])
        }
    }
}

// How many bytes the tables in front of a buffer have, by the sizes in front of them.
fn written(p: Parsed, tables: &[u8]) -> usize
    requires { Limited p }
    ensures { (sh : Sheet) → Packs sh p → result ≡ extent sh (at tables.now) }
{
    let n = p.sorts;
    let sizes = tables::sizes_of(n, tables);
    let offsets = tables::extents(p, sizes);
    let end = p.symbols;
    offsets[end]
}
