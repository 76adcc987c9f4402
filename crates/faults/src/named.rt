// The line that names a fault, put on a page.
ghost use Rattle.std.specs.Prelude.{◌+◌, ◌≤◌, ◌≡◌, length, drop};
ghost use Rattle.buffer.specs.Page.{HasRoom, Writes};
ghost use Rattle.words.specs.declared.scan.Fault.{Fault};
ghost use Rattle.words.specs.Faults.{line_behind, shown_byte, shown_up_to, quoted, stood_text, expected_text, fault_text, fault_line};

use crate::expected::put_expected_at;
use crate::found::{line_behind, no_word, spot_in, word_of};
use buffer::Page;
use words::scan::Fault;

// A byte that is no letter and no digit is shown as `?`.
fn shown_byte(b: u8) -> u8
    ensures { result ≡ shown_byte b }
{
    if b.is_ascii_alphanumeric() { b } else { b'?' }
}

// At most twenty bytes of the word or number that stands there.
fn put_shown(page: &mut Page<'_>, rest: &[u8])
    requires { HasRoom page.old 20 }
    ensures { Writes page.old page.new (shown_up_to 20 rest.now) × (page.new.len ≤ page.old.len + 20) }
{
    for b in word_of(&rest[..rest.len().min(20)]) {
        page.put_byte(shown_byte(*b));
    }
}

fn put_quoted(page: &mut Page<'_>, rest: &[u8])
    requires { HasRoom page.old 22 }
    ensures { Writes page.old page.new (quoted rest.now) × (page.new.len ≤ page.old.len + 22) }
{
    page.put_byte(b'\'');
    put_shown(page, rest);
    page.put_byte(b'\'');
}

// What stood there, if anything did.
fn put_stood(page: &mut Page<'_>, rest: &[u8])
    requires { HasRoom page.old 26 }
    ensures { Writes page.old page.new (stood_text rest.now) × (page.new.len ≤ page.old.len + 26) }
{
    if !no_word(rest) {
        page.put_text(b" at ");
        put_quoted(page, rest);
    }
}

// What this place of the grammar takes.
fn put_expected_text(page: &mut Page<'_>, node: u8)
    requires { HasRoom page.old 425 }
    ensures { Writes page.old page.new (expected_text node) × (page.new.len ≤ page.old.len + 425) }
{
    page.put_text(b", ");
    put_expected_at(page, node);
    page.put_text(b" expected");
}

fn put_unknown(page: &mut Page<'_>, line: &[u8])
    requires { HasRoom page.old 512 }
    ensures { Writes page.old page.new (fault_text Fault.UnknownWord line.now) × (page.new.len ≤ page.old.len + 512) }
{
    let spot = spot_in(line);
    page.put_text(b"unknown word ");
    put_quoted(page, spot.rest);
    put_expected_text(page, spot.node);
}

fn put_missing(page: &mut Page<'_>, line: &[u8])
    requires { HasRoom page.old 512 }
    ensures { Writes page.old page.new (fault_text Fault.MissingField line.now) × (page.new.len ≤ page.old.len + 512) }
{
    let spot = spot_in(line);
    page.put_text(b"missing field");
    put_stood(page, spot.rest);
    put_expected_text(page, spot.node);
}

// What is wrong with this line.
fn put_fault(page: &mut Page<'_>, f: Fault, line: &[u8])
    requires { HasRoom page.old 512 }
    ensures { Writes page.old page.new (fault_text f line.now) × (page.new.len ≤ page.old.len + 512) }
{
    match f {
        Fault::UnknownWord => put_unknown(page, line),
        Fault::MissingField => put_missing(page, line),
        Fault::TooLarge => page.put_text(b"number too large"),
        Fault::LineTooLong => page.put_text(b"line too long"),
        Fault::TooManyLines => page.put_text(b"too many lines"),
    }
}

// "line ", the number of the line behind so many others, ": " and what is wrong with it.
#[tactic(auto, using(rules::proofs::ListingLaws::digits_length))]
pub fn put_fault_line(page: &mut Page<'_>, text: &[u8], lines: u32, f: Fault)
    requires { HasRoom page.old 540 }
    ensures { Writes page.old page.new (fault_line (lines + 1) f (line_behind lines text.now)) × (page.new.len ≤ page.old.len + 540) }
{
    page.put_text(b"line ");
    page.put_digits(20, u64::from(lines) + 1);
    page.put_text(b": ");
    put_fault(page, f, line_behind(text, lines));
    page.put_byte(b'\n');
}
