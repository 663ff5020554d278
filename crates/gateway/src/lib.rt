// Find, the two questions that it asks in turn, and judge, for C programs: byte buffers in, one number out. The C side is c/deodarloo.h.
#![tactic(auto)]

ghost use Rattle.std.specs.Prelude.{◌≡◌, length};
ghost use Rattle.judge.specs.Judge.{judgement};
ghost use Rattle.sizes.specs.Sizing.{sizing, sizes_after};
ghost use Rattle.find_at.specs.FindAt.{finding_at, codes_after_at, tables_after_at};
ghost use Rattle.finder.specs.Find.{finding, codes_after, tables_after};
ghost use Rattle.gateway.specs.Number.{refusal_number, find_number, sizes_number, judge_number, Small};

use prelude::refusal::Refusal;
use tables::Judgement;

// Finds the first answer to a sheet: the sum of its sizes, or the refusal. The codes stand in front of `codes` and the tables in front
// of `tables`, and every other byte of both is as it was.
#[unsafe(no_mangle)]
pub extern "C" fn find(sheet: &[u8], codes: &mut [u8], tables: &mut [u8]) -> u32
    ensures result { result ≡ find_number (finding sheet.now (length codes.old) (length tables.old)) }
    ensures codes { codes.new ≡ codes_after sheet.now codes.old tables.old }
    ensures tables { tables.new ≡ tables_after sheet.now codes.old tables.old }
{
    let found = finder::find(sheet, codes, tables);
    found_number(found)
}

// The sizes of the first answer to a sheet: their sum, or the refusal. They stand in front of `out`, one byte per field, and every other
// byte is as it was.
#[unsafe(no_mangle)]
pub extern "C" fn sizes(sheet: &[u8], out: &mut [u8]) -> u32
    ensures result { result ≡ sizes_number (sizing sheet.now (length out.old)) }
    ensures buffer { out.new ≡ sizes_after sheet.now out.old }
{
    let sized = sizes::sizes(sheet, out);
    found_number(sized)
}

// Finds the first answer to a sheet that has exactly these sizes; result and buffers are as find's.
#[unsafe(no_mangle)]
pub extern "C" fn find_at(sheet: &[u8], sizes: &[u8], codes: &mut [u8], tables: &mut [u8]) -> u32
    ensures result { result ≡ find_number (finding_at sheet.now sizes.now (length codes.old) (length tables.old)) }
    ensures codes { codes.new ≡ codes_after_at sheet.now sizes.now codes.old tables.old }
    ensures tables { tables.new ≡ tables_after_at sheet.now sizes.now codes.old tables.old }
{
    let found_at = find_at::find_at(sheet, sizes, codes, tables);
    found_number(found_at)
}

// Judges offered tables: 0 where they fit, 1 out of bounds, 2 + k where statement k is the first that is broken, or the refusal.
#[unsafe(no_mangle)]
pub extern "C" fn judge(sheet: &[u8], tables: &[u8]) -> u32
    ensures { result ≡ judge_number (judgement sheet.now tables.now) }
{
    let j = judge::judge(sheet, tables);
    match j {
        Ok(Judgement::Fits) => 0,
        Ok(Judgement::OutOfBounds) => 1,
        Ok(Judgement::Broken(k)) => 2 + (k as u32),
        Err(r) => refusal(r.cause.number(), r.place as u16),
    }
}

// What find, sizes or find_at found, as one number. Not exported: that the answer is small is proved where each of the three calls it.
fn found_number(found: Result<usize, Refusal>) -> u32
    requires { Small found }
    ensures { result ≡ find_number found }
{
    match found {
        Ok(sum) => sum as u32,
        Err(r) => refusal(r.cause.number(), r.place as u16),
    }
}

// A refusal as one number.
// Kept: numbers, the C interface.
fn refusal(number: u8, place: u16) -> u32
    ensures { result ≡ refusal_number number place }
{
    (number as u32) * 65536 + (place as u32)
}
