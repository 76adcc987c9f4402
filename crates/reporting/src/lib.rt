// What a clearance check says, put into the caller's buffer: the sheet run, the ship checked on the tables that it leaves, the verdict told.
// Each function equals its definition in specs/Report.antt.
#![tactic(auto)]

ghost use Rattle.std.specs.Prelude.{◌*◌, ◌≤◌, ◌≡◌, length};
ghost use Rattle.buffer.specs.Page.{HasRoom, Writes};
ghost use Rattle.buffer.specs.Text.{Puts};
ghost use Rattle.clearing.specs.Clearing.{own_number};
ghost use Rattle.reporting.specs.Report.{name_for, own_name, own_told, width_told, widths_told, read_told, refused_step_told, cleared_told, is_too_long, report_of};

use answers::refusal_number;
use buffer::Page;
use clearing::{Cleared, Inquiry, OwnRefusal, Verdict, clear};
use names::line_for;
use requests::read_request;
use rules::outcomes::Refusal;
use rules::steps::Step;
use running::tables_after;
use saying::line::put_step;
use sheet::{sheet_answer, sheet_number, sheet_records};
use telling::{put_accepted, put_refused};

fn own_number(own: OwnRefusal) -> u64
    ensures { result ≡ own_number own }
{
    own as u64
}

fn own_name(own: OwnRefusal) -> &'static [u8]
    ensures { result.now ≡ own_name own }
{
    match own {
        OwnRefusal::Beam => b"beam",
        OwnRefusal::Margin => b"margin",
        OwnRefusal::List => b"list",
        OwnRefusal::Object => b"object",
        OwnRefusal::Twice => b"twice",
    }
}

// The one line of a check that was refused by itself.
#[tactic(auto, using(rules::proofs::ListingLaws::digits_length, crate::specs::Lengths::own_name_length))]
fn put_own(page: &mut Page<'_>, own: OwnRefusal)
    requires { HasRoom page.old 64 }
    ensures { Writes page.old page.new (own_told own) }
{
    page.put_text(b"refused ");
    page.put_digits(20, own_number(own));
    page.put_byte(b' ');
    page.put_text(own_name(own));
    page.put_byte(b'\n');
}

// The station's list and the company's, neither of them too long.
#[derive(Clone, Copy)]
struct Lists<'a> {
    station: &'a [u8],
    company: &'a [u8],
    ghost station_short: { length station.now ≤ 16384 },
    ghost company_short: { length company.now ≤ 16384 },
}

impl Lists<'_> {
    // An object, by its line or its number.
    fn put_name(&self, page: &mut Page<'_>, object: u8)
        requires { HasRoom page.old 16384 }
        ensures { Writes page.old page.new (name_for self.now.station.now self.now.company.now object) }
    {
        let line = line_for(self.station, self.company, object);
        if line.is_empty() {
            page.put_digits(20, u64::from(object));
        } else {
            page.put_text(line);
        }
    }

    // The line of a width.
    fn put_width(&self, page: &mut Page<'_>, object: u8, width: u32)
        requires { HasRoom page.old 16448 }
        ensures { Writes page.old page.new (width_told self.now.station.now self.now.company.now object width) }
    {
        self.put_name(page, object);
        put_accepted(page, u64::from(width));
        page.put_byte(b'\n');
    }

    // The lines of the widths that a check shows.
    fn put_widths(&self, page: &mut Page<'_>, objects: &[u8], c: &Cleared)
        requires { (c.now.count ≤ 8) × (c.now.count ≤ length objects.now) × HasRoom page.old (16448 * c.now.count) }
        ensures { Writes page.old page.new (widths_told self.now.station.now self.now.company.now objects.now c.now.widths c.now.count) }
    {
        for i in 0..c.count {
            self.put_width(page, objects[i], c.widths[i]);
        }
    }

    // Which object a refused read was for.
    fn put_read(&self, page: &mut Page<'_>, objects: &[u8], c: &Cleared)
        requires { HasRoom page.old 16390 }
        ensures { Writes page.old page.new (read_told self.now.station.now self.now.company.now objects.now c.now) }
    {
        let begun = c.passage.is_some();
        if begun && c.read < objects.len() {
            page.put_text(b" for ");
            self.put_name(page, objects[c.read]);
        }
    }

    // The line of the step that was refused.
    fn put_refused_step(
        &self,
        page: &mut Page<'_>,
        objects: &[u8],
        step: Step,
        refusal: Refusal,
        c: &Cleared,
    )
        requires { HasRoom page.old 16600 }
        ensures { Writes page.old page.new (refused_step_told self.now.station.now self.now.company.now objects.now step refusal c.now) }
    {
        put_step(page, step);
        put_refused(page, refusal_number(refusal));
        self.put_read(page, objects, c);
        page.put_byte(b'\n');
    }

    // The verdict, and what belongs to it.
    #[tactic(auto, unfolding(crate::specs::Report::cleared_told))]
    fn put_cleared(&self, page: &mut Page<'_>, objects: &[u8], c: &Cleared)
        requires { (c.now.count ≤ 8) × (c.now.count ≤ length objects.now) × HasRoom page.old 262144 }
        ensures { Writes page.old page.new (cleared_told self.now.station.now self.now.company.now objects.now c.now) }
    {
        match c.verdict {
            Verdict::Refused(own) => put_own(page, own),
            Verdict::NoReading(step, refusal) => {
                page.put_text(b"no reading\n");
                self.put_refused_step(page, objects, step, refusal, c);
            }
            Verdict::Narrow => {
                page.put_text(b"narrow\n");
                self.put_widths(page, objects, c);
            }
            Verdict::Fits => {
                page.put_text(b"fits\n");
                self.put_widths(page, objects, c);
            }
        }
    }
}

fn is_too_long(list: &[u8]) -> bool
    ensures { result ≡ is_too_long list.now }
{
    16384 < list.len()
}

// The whole text.
fn put_report(page: &mut Page<'_>, text: &[u8], station: &[u8], company: &[u8], sheet: &[u8])
    requires { HasRoom page.old 262144 }
    ensures { Writes page.old page.new (report_of text.now station.now company.now sheet.now) }
{
    let Some(request) = read_request(text) else {
        page.put_text(b"request not read\n");
        return;
    };
    if is_too_long(station) || is_too_long(company) {
        page.put_text(b"list too long\n");
        return;
    }
    let lists = Lists { station, company };
    let answer = sheet_answer(sheet);
    let Ok(()) = answer else {
        page.put_sheet_line(sheet_number(answer));
        return;
    };
    let tables = tables_after(sheet_records(sheet));
    let objects = &request.objects[..request.count];
    let inquiry = Inquiry {
        beam: request.beam,
        margin: request.margin,
        objects,
        home: request.home,
        slot: request.slot,
        quiesce: request.quiesce,
        release: request.release,
    };
    lists.put_cleared(page, objects, &clear(tables, &inquiry));
}

// The whole text at the front of the caller's buffer, which has room for any; the answer is its length.
// The bytes behind the text stay as they were.
#[tactic(auto, using(buffer::proofs::Pages::puts_from_front))]
pub fn report<'a>(
    text: &[u8],
    station: &'a [u8],
    company: &'a [u8],
    sheet: &[u8],
    out: &mut [u8; 262144],
) -> usize
    ensures { Puts out.old 0 (report_of text.now station.now company.now sheet.now) out.new result × (result ≤ length out.new) }
{
    let mut page = Page::new(out);
    put_report(&mut page, text, station, company, sheet);
    page.len()
}
