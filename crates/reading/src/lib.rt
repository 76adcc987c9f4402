// A text of words, byte by byte, into a sheet, or into the line that names what is wrong.
// Each function equals its definition in words' specs/Scan.antt and specs/Sheets.antt.
#![tactic(auto)]

mod reader;

ghost use Rattle.std.specs.Prelude.{◌+◌, ◌*◌, ◌≤◌, ◌<◌, ◌≡◌, length};
ghost use Rattle.buffer.specs.Page.{HasRoom, Writes};
ghost use Rattle.buffer.specs.Text.{Puts};
ghost use Rattle.words.specs.Scan.{reader_next, given, text_read};
ghost use Rattle.words.specs.Sheets.{trailer_of, answer_text, unmarked, sheet_text};

use crate::reader::{gives_record, reader_next, unread};
use buffer::Page;
use faults::named::put_fault_line;
use scanning::line::end_of;
use words::scan::Reader;

// The whole text, and what is wrong with it, if something is.
#[tactic(auto, using(words::proofs::ReadLaws::reader_more, crate::proofs::Answering::reader_done), unfolding(words::specs::Scan::read_all))]
fn read_text(text: &[u8]) -> Reader
    ensures { result ≡ (text_read text.now).reader }
{
    let mut r = unread();
    for b in text {
        r = reader_next(r, *b);
    }
    reader_next(r, b'\n')
}

// The record that this byte gives, if it gives one, behind the records so far.
#[tactic(auto, using(buffer::proofs::Pages::writes_nothing, words::proofs::ReadLaws::next_count, words::proofs::ReadLaws::gives_room), unfolding(words::specs::Scan::given))]
fn put_given(page: &mut Page<'_>, r: Reader, b: u8)
    requires { (page.old.len ≡ 16 * r.count) × (65520 ≤ length page.old.out.now) }
    ensures { Writes page.old page.new (given r b) × (page.new.len ≡ 16 * (reader_next r b).count) }
{
    if gives_record(r, b) {
        page.put_text(&end_of(r.scan).bytes);
    }
}

// All records of a text, at the front of the page.
fn put_records(page: &mut Page<'_>, text: &[u8])
    requires { (page.old.len ≡ 0) × HasRoom page.old 65520 }
    ensures { Writes page.old page.new (text_read text.now).records × (page.new.len ≤ 65520) }
{
    let mut r = unread();
    for b in text {
        put_given(page, r, *b);
        r = reader_next(r, *b);
    }
    put_given(page, r, b'\n');
}

// The distance in four bytes, and the mark.
fn put_trailer(page: &mut Page<'_>)
    requires { HasRoom page.old 8 × (page.old.len ≤ 65520) }
    ensures { Writes page.old page.new (trailer_of page.old.len) }
{
    let distance = page.len() as u32;
    page.put_text(&distance.to_le_bytes());
    page.put_text(b"PASS");
}

// The sheet that a text makes, or the first bad line by its number and what is wrong.
fn put_answer(page: &mut Page<'_>, text: &[u8])
    requires { (page.old.len ≡ 0) × HasRoom page.old 65536 }
    ensures { Writes page.old page.new (answer_text text.now) }
{
    let r = read_text(text);
    match r.stop {
        None => {
            put_records(page, text);
            put_trailer(page);
        }
        Some(f) => put_fault_line(page, text, r.lines, f),
    }
}

// The text without the three bytes that may stand before it.
#[tactic(auto, using(crate::proofs::Answering::mark_left, crate::proofs::Answering::mark_cut, crate::proofs::Answering::mark_some, crate::proofs::Answering::mark_none))]
fn unmarked(text: &[u8]) -> &[u8]
    ensures { result.now ≡ unmarked text.now }
{
    text.strip_prefix(&[0xEF, 0xBB, 0xBF]).unwrap_or(text)
}

// The sheet that a text of words makes, at the front of the caller's buffer, or the line that names what is wrong.
// The answer is its length. The bytes behind it stay as they were.
#[tactic(auto, using(buffer::proofs::Pages::puts_from_front), unfolding(words::specs::Sheets::sheet_text))]
pub fn put_sheet(text: &[u8], out: &mut [u8; 65536]) -> usize
    ensures { Puts out.old 0 (sheet_text text.now) out.new result × (result ≤ length out.new) }
{
    let mut page = Page::new(out);
    if 524288 < text.len() {
        page.put_text(b"text too long\n");
        return page.len();
    }
    put_answer(&mut page, unmarked(text));
    page.len()
}
