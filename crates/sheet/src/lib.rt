// The sheet: heading, records of 16 bytes, trailer of 8 bytes. Reads the trailer, hands back the part that holds the records, and a record of it.
// Each function equals its definition in rules' specs/Sheet.antt.
#![tactic(auto)]

ghost use Rattle.std.specs.Prelude.{◌+◌, ◌*◌, ◌≤◌, ◌≡◌, length};
ghost use Rattle.rules.specs.Sheet.{distance_of, has_mark, sheet_answer, sheet_number, sheet_records, record_at};

use rules::steps::{SheetAnswer, SheetRefusal};

// The distance from the trailer's start back to the first record.
fn distance(b: &[u8]) -> usize
    requires { 8 ≤ length b.now }
    ensures { result ≡ distance_of b.now }
{
    let at = b.len() - 8;
    u32::from_le_bytes([b[at], b[at + 1], b[at + 2], b[at + 3]]) as usize
}

// The bytes "PASS".
fn has_mark(b: &[u8]) -> bool
    requires { 8 ≤ length b.now }
    ensures { result ≡ has_mark b.now }
{
    matches!(b, [.., b'P', b'A', b'S', b'S'])
}

// The four refusals of a sheet, in their order.
#[tactic(auto, unfolding(rules::specs::Sheet::sheet_answer))]
pub fn sheet_answer(b: &[u8]) -> SheetAnswer
    ensures { result ≡ sheet_answer b.now }
{
    if 65536 < b.len() {
        return Err(SheetRefusal::TooLong);
    }
    if b.len() < 8 {
        return Err(SheetRefusal::TooShort);
    }
    if !has_mark(b) {
        return Err(SheetRefusal::BadMark);
    }
    let back = distance(b);
    if (back % 16 != 0) | (b.len() - 8 < back) {
        return Err(SheetRefusal::BadDistance);
    }
    Ok(())
}

// The part of the caller's own bytes that holds the records; the empty part of a refused sheet.
pub fn sheet_records(b: &[u8]) -> &[u8]
    ensures { result.now ≡ sheet_records b.now }
{
    let Ok(()) = sheet_answer(b) else {
        return &b[..0];
    };
    let to = b.len() - 8;
    let from = to - distance(b);
    &b[from..to]
}

// Record i of a part that holds records.
pub fn record_at(part: &[u8], i: usize) -> [u8; 16]
    requires { 16 * i + 16 ≤ length part.now }
    ensures { result ≡ record_at part.now i }
{
    let mut record = [0; 16];
    record.copy_from_slice(&part[16 * i..16 * i + 16]);
    record
}

// The number of a sheet's answer; a sheet that is taken has 0.
pub fn sheet_number(answer: SheetAnswer) -> u64
    ensures { result ≡ sheet_number answer }
{
    match answer {
        Ok(()) => 0,
        Err(refusal) => refusal as u64,
    }
}
