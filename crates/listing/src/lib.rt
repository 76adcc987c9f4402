// A whole sheet run into a buffer of lines: each record from the start, one line each, or the one line of a refused sheet.
#![tactic(auto)]

ghost use Rattle.std.specs.Prelude.{◌*◌, ◌≤◌, length};
ghost use Rattle.buffer.specs.Page.{HasRoom, Writes};
ghost use Rattle.buffer.specs.Text.{Puts};
ghost use Rattle.listing.specs.Lines.{lines_of};
ghost use Rattle.rules.specs.Listing.{line_of, listing_of};

use answers::answer_number;
use buffer::Page;
use rules::outcomes::Answer;
use running::run;
use sheet::{sheet_answer, sheet_number, sheet_records};

// The line of a record by its answer: an accepted step has number 0 and its value, a refused one its number and value 0.
#[tactic(auto, unfolding(rules::specs::Listing::line_of))]
fn put_answer(page: &mut Page<'_>, place: u64, answer: Answer)
    requires { HasRoom page.old 64 }
    ensures { Writes page.old page.new (line_of place answer) }
{
    let Ok(value) = answer else {
        page.put_line(place, answer_number(answer), 0);
        return;
    };
    page.put_line(place, 0, value);
}

// The lines of a part's answers.
fn put_lines(page: &mut Page<'_>, answers: &[Answer])
    requires { HasRoom page.old (64 * length answers.now) }
    ensures { Writes page.old page.new (lines_of answers.now (length answers.now)) }
{
    for (i, answer) in answers.iter().enumerate() {
        put_answer(page, (i + 1) as u64, *answer);
    }
}

// The whole text of a sheet's listing, at the front of the caller's buffer, which has room for any; the answer is its length.
// The bytes behind the text stay as they were.
pub fn list(sheet: &[u8], out: &mut [u8; 262144]) -> usize
    ensures { Puts out.old 0 (listing_of sheet.now) out.new result × (result ≤ length out.new) }
{
    let mut page = Page::new(out);
    let answer = sheet_answer(sheet);
    let Ok(()) = answer else {
        page.put_sheet_line(sheet_number(answer));
        return page.len();
    };
    let part = sheet_records(sheet);
    let n = part.len() / 16;
    // A sheet has at most 4,095 records.
    let mut answers = [Ok(0); 4096];
    run(part, n, &mut answers);
    put_lines(&mut page, &answers[..n]);
    page.len()
}
