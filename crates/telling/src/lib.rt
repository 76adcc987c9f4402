// What passread prints, put into the caller's buffer.
// Each function equals its definition in words' specs/Tell.antt.
#![tactic(auto)]

ghost use Rattle.std.specs.Prelude.{◌+◌, ◌*◌, ◌/◌, ◌≤◌, ◌≡◌, length};
ghost use Rattle.buffer.specs.Page.{HasRoom, Writes};
ghost use Rattle.buffer.specs.Text.{Puts};
ghost use Rattle.rules.specs.Answers.{refusal_number};
ghost use Rattle.words.specs.Say.{record_text};
ghost use Rattle.words.specs.Tell.{refusal_phrase, accepted_told, refused_told, answer_told, told_line, sheet_phrase, refused_sheet, told_up_to, plain_up_to, sheet_told, plain_of};
ghost use Rattle.running.specs.Answered.{HoldsAnswers};

use answers::refusal_number;
use buffer::Page;
use rules::outcomes::{Answer, Refusal};
use rules::steps::{SheetAnswer, SheetRefusal};
use running::run;
use saying::line::put_record;
use sheet::{record_at, sheet_answer, sheet_number, sheet_records};

// What the refusal of this number means. A number that is no refusal's means nothing.
// It goes by the number, since `put_refused` promises `refused_told` of any number.
#[tactic(auto, unfolding(words::specs::Tell::refusal_phrases))]
fn phrase_of(number: u64) -> &'static [u8]
    ensures { result.now ≡ refusal_phrase number }
{
    match number {
        1 => b"no such step",
        2 => b"field or times not allowed",
        3 => b"no such passage or message",
        4 => b"site is down",
        5 => b"does not fit as it stands",
        6 => b"no visit there",
        7 => b"clock would pass its end",
        8 => b"quiesced or dead",
        9 => b"wrong round or done before",
        10 => b"object is held",
        11 => b"the message table is full",
        12 => b"round is not closed",
        13 => b"no call is left to that station",
        14 => b"no round is left",
        20 => b"tables out of range",
        _ => b"",
    }
}

// An equals sign and the value of an accepted record.
pub fn put_accepted(page: &mut Page<'_>, value: u64)
    requires { HasRoom page.old 56 }
    ensures { Writes page.old page.new (accepted_told value) }
{
    page.put_text(b" = ");
    page.put_digits(20, value);
}

// The number of a refusal and what it means.
#[tactic(auto, using(rules::proofs::ListingLaws::digits_length))]
pub fn put_refused(page: &mut Page<'_>, number: u64)
    requires { HasRoom page.old 56 }
    ensures { Writes page.old page.new (refused_told number) }
{
    page.put_text(b" refused ");
    page.put_digits(20, number);
    page.put_byte(b' ');
    page.put_text(phrase_of(number));
}

// The answer of a record.
fn put_answer(page: &mut Page<'_>, answer: Answer)
    requires { HasRoom page.old 56 }
    ensures { Writes page.old page.new (answer_told answer) }
{
    match answer {
        Ok(value) => put_accepted(page, value),
        Err(refusal) => put_refused(page, refusal_number(refusal)),
    }
}

// What a sheet's answer means.
fn sheet_phrase(answer: SheetAnswer) -> &'static [u8]
    ensures { result.now ≡ sheet_phrase answer }
{
    match answer {
        Ok(()) => b"taken",
        Err(SheetRefusal::TooLong) => b"over 65536 bytes",
        Err(SheetRefusal::TooShort) => b"under 8 bytes",
        Err(SheetRefusal::BadMark) => b"mark is wrong",
        Err(SheetRefusal::BadDistance) => b"distance is wrong",
    }
}

// The one line of a refused sheet: its number and what it means.
#[tactic(auto, using(rules::proofs::ListingLaws::digits_length, crate::specs::Lengths::sheet_phrase_length))]
fn put_refused_sheet(page: &mut Page<'_>, answer: SheetAnswer)
    requires { HasRoom page.old 64 }
    ensures { Writes page.old page.new (refused_sheet answer) }
{
    page.put_text(b"sheet ");
    page.put_digits(20, sheet_number(answer));
    page.put_byte(b' ');
    page.put_text(sheet_phrase(answer));
    page.put_byte(b'\n');
}

// The line of a record: its place, its words and its answer.
#[tactic(auto, using(crate::specs::Lengths::place_digits, crate::specs::Lengths::answer_length))]
fn put_told_line(page: &mut Page<'_>, place: u64, bytes: [u8; 16], answer: Answer)
    requires { HasRoom page.old 128 × (place ≤ 9999) × (length (record_text bytes) ≤ 66) }
    ensures { Writes page.old page.new (told_line place bytes answer) }
{
    page.put_digits(20, place);
    page.put_byte(b' ');
    put_record(page, bytes);
    put_answer(page, answer);
    page.put_byte(b'\n');
}

// The lines of a part's first records, whose answers these are.
fn put_told(page: &mut Page<'_>, part: &[u8], answers: &[Answer])
    requires { (16 * length answers.now ≤ length part.now) × HasRoom page.old (128 * length answers.now) × (length answers.now ≤ 4095) × HoldsAnswers part.now (length answers.now) answers.now }
    ensures { Writes page.old page.new (told_up_to part.now (length answers.now)) }
{
    for (i, answer) in answers.iter().enumerate() {
        put_told_line(page, (i + 1) as u64, record_at(part, i), *answer);
    }
}

// The words of a part's records.
fn put_plain(page: &mut Page<'_>, part: &[u8])
    requires { HasRoom page.old (128 * (length part.now / 16)) }
    ensures { Writes page.old page.new (plain_up_to part.now (length part.now / 16)) }
{
    let n = part.len() / 16;
    for i in 0..n {
        put_record(page, record_at(part, i));
        page.put_byte(b'\n');
    }
}

// A sheet in words, each record with its place and its answer, at the front of the caller's buffer, which has room for any.
// The answer is the length of the text. The bytes behind it stay as they were.
pub fn tell(sheet: &[u8], out: &mut [u8; 524288]) -> usize
    ensures { Puts out.old 0 (sheet_told sheet.now) out.new result × (result ≤ length out.new) }
{
    let mut page = Page::new(out);
    let answer = sheet_answer(sheet);
    let Ok(()) = answer else {
        put_refused_sheet(&mut page, answer);
        return page.len();
    };
    let part = sheet_records(sheet);
    let n = part.len() / 16;
    // A sheet has at most 4,095 records.
    let mut answers = [Ok(0); 4096];
    run(part, n, &mut answers);
    put_told(&mut page, part, &answers[..n]);
    page.len()
}

// A sheet in words alone, fit to be read again, likewise.
pub fn tell_plain(sheet: &[u8], out: &mut [u8; 524288]) -> usize
    ensures { Puts out.old 0 (plain_of sheet.now) out.new result × (result ≤ length out.new) }
{
    let mut page = Page::new(out);
    let answer = sheet_answer(sheet);
    let Ok(()) = answer else {
        put_refused_sheet(&mut page, answer);
        return page.len();
    };
    put_plain(&mut page, sheet_records(sheet));
    page.len()
}
