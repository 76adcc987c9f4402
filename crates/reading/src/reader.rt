// A text under way, one byte more.
ghost use Rattle.std.specs.Prelude.{◌<◌, ◌≡◌};
ghost use Rattle.words.specs.Scan.{reading, stopped, recorded, line_ended, judged, byte_read, blank, next_while, reader_next, gives_record};

use scanning::line::{blank, end_of, scan_next, verdict_of};
use words::scan::{Fault, LINE_MOST, LINES_MOST, Line, RECORD_MOST, Reader, Scan};

fn reading(lines: u32, count: u32, length: u32, scan: Scan) -> Reader
    ensures { result ≡ reading lines count length scan }
{
    Reader {
        stop: None,
        scan,
        length,
        lines,
        count,
    }
}

// Before a text.
pub(crate) fn unread() -> Reader
    ensures { result ≡ reading 0 0 0 blank }
{
    reading(0, 0, 0, blank())
}

fn stopped(r: Reader, f: Fault) -> Reader
    ensures { result ≡ stopped r f }
{
    Reader { stop: Some(f), ..r }
}

// A line that says a record has ended; a sheet holds at most 4,095.
fn recorded(r: Reader) -> Reader
    requires { r.lines < 1000000 }
    ensures { result ≡ recorded r }
{
    if r.count < RECORD_MOST {
        return reading(r.lines + 1, r.count + 1, 0, blank());
    }
    stopped(r, Fault::TooManyLines)
}

// A line has ended, and says a record, or nothing, or something wrong.
fn judged(r: Reader, says: Result<Line, Fault>) -> Reader
    requires { r.lines < 1000000 }
    ensures { result ≡ judged r says }
{
    match says {
        Ok(Line::Blank) => reading(r.lines + 1, r.count, 0, blank()),
        Ok(Line::Record) => recorded(r),
        Err(f) => stopped(r, f),
    }
}

fn line_ended(r: Reader) -> Reader
    ensures { result ≡ line_ended r }
{
    if r.lines < LINES_MOST {
        return judged(r, verdict_of(end_of(r.scan)));
    }
    stopped(r, Fault::TooManyLines)
}

// A byte of a line more; a line has at most 1,000.
fn byte_read(r: Reader, b: u8) -> Reader
    ensures { result ≡ byte_read r b }
{
    if r.length < LINE_MOST {
        return reading(r.lines, r.count, r.length + 1, scan_next(r.scan, b));
    }
    stopped(r, Fault::LineTooLong)
}

fn going_next(r: Reader, b: u8) -> Reader
    ensures { result ≡ next_while None r b }
{
    if b == b'\n' {
        return line_ended(r);
    }
    byte_read(r, b)
}

// One byte of a text more; after something wrong nothing changes.
#[tactic(auto, unfolding(words::specs::Scan::reader_next))]
pub(crate) fn reader_next(r: Reader, b: u8) -> Reader
    ensures { result ≡ reader_next r b }
{
    match r.stop {
        None => going_next(r, b),
        Some(_) => r,
    }
}

// Whether this byte ends a line that says a record, and there is room for it.
#[tactic(auto, unfolding(words::specs::Scan::gives_record))]
pub(crate) fn gives_record(r: Reader, b: u8) -> bool
    ensures { result ≡ gives_record r b }
{
    let says = verdict_of(end_of(r.scan));
    r.stop.is_none()
        && b == b'\n'
        && r.lines < LINES_MOST
        && matches!(says, Ok(Line::Record))
        && r.count < RECORD_MOST
}
