// A line under way, one byte more.
ghost use Rattle.std.specs.Prelude.{◌≤◌, ◌<◌, ◌≡◌, true, IfSome};
ghost use Rattle.words.specs.Scan.{blank, wrong, misplaced, followed, word_taken, filled, number_taken, end_of, noted, hex_taken, hex_next, is_letter, is_digit, lettered, numbered, token_begun, byte_by, live_next, scan_next, is_record, ends_at, verdict_of};

use crate::bytes::{hex_value, is_digit, is_hash, is_letter, is_space};
use crate::fields::{most_in, said, slot_stored};
use grammar::{edge_at, edge_of, may_end, slot_at};
use words::rows::{Edge, RAW_NODE, Slot};
use words::scan::{Fault, Line, Mode, Scan};

// Before a line.
pub fn blank() -> Scan
    ensures { result ≡ blank }
{
    Scan {
        mode: Mode::Gap,
        token: 0,
        node: 0,
        digits: 0,
        bytes: [0; 16],
    }
}

fn wrong(s: Scan, f: Fault) -> Scan
    ensures { result ≡ wrong s f }
{
    Scan {
        mode: Mode::Wrong(f),
        token: 0,
        ..s
    }
}

// A word or a number that does not belong here.
fn misplaced(s: Scan) -> Scan
    ensures { result ≡ misplaced s }
{
    if may_end(s.node) {
        wrong(s, Fault::UnknownWord)
    } else {
        wrong(s, Fault::MissingField)
    }
}

fn followed(s: Scan, e: Edge) -> Scan
    requires { IfSome e.says (λ x. x.field < 16) }
    ensures { result ≡ followed s e }
{
    Scan {
        mode: Mode::Gap,
        token: 0,
        node: e.to,
        bytes: said(e.says, s.bytes),
        ..s
    }
}

// A word has ended.
#[tactic(auto, unfolding(words::specs::Scan::word_taken))]
fn word_taken(s: Scan) -> Scan
    ensures { result ≡ word_taken s }
{
    match edge_at(s.node, s.token) {
        Some(k) => followed(s, edge_of(k)),
        None => misplaced(s),
    }
}

fn filled(s: Scan, f: Slot) -> Scan
    requires { f.field ≤ 12 }
    ensures { result ≡ filled s f }
{
    if s.token > most_in(f.width) {
        return wrong(s, Fault::TooLarge);
    }
    Scan {
        mode: Mode::Gap,
        token: 0,
        node: f.to,
        bytes: slot_stored(f, s.token, s.bytes),
        ..s
    }
}

// A number has ended.
#[tactic(auto, unfolding(words::specs::Scan::number_taken))]
fn number_taken(s: Scan) -> Scan
    ensures { result ≡ number_taken s }
{
    match slot_at(s.node) {
        Some(f) => filled(s, f),
        None => misplaced(s),
    }
}

// A word or a number, if there is one, has ended.
pub fn end_of(s: Scan) -> Scan
    ensures { result ≡ end_of s }
{
    match s.mode {
        Mode::Word => word_taken(s),
        Mode::Number => number_taken(s),
        _ => s,
    }
}

// The rest of the line is a comment, unless something was wrong before.
fn noted(s: Scan) -> Scan
    ensures { result ≡ noted s }
{
    match s.mode {
        Mode::Gap => Scan {
            mode: Mode::Comment,
            token: 0,
            ..s
        },
        _ => s,
    }
}

// A hex digit goes into the record, two to a byte.
fn hex_taken(s: Scan, x: u8) -> Scan
    requires { (s.digits < 32) × (x < 16) }
    ensures { result ≡ hex_taken s x }
{
    let k = (s.digits / 2) as usize;
    let mut bytes = s.bytes;
    bytes[k] = bytes[k] % 16 * 16 + x;
    Scan {
        mode: Mode::Gap,
        token: 0,
        digits: s.digits + 1,
        bytes,
        ..s
    }
}

fn hex_next(s: Scan, b: u8) -> Scan
    ensures { result ≡ hex_next s b }
{
    match hex_value(b) {
        Some(x) if s.digits < 32 => hex_taken(s, x as u8),
        _ => wrong(s, Fault::UnknownWord),
    }
}

// A letter more; no word has more than twelve.
fn lettered(s: Scan, b: u8) -> Scan
    requires { is_letter b ≡ true }
    ensures { result ≡ lettered s b }
{
    if s.token > 36028797018963967 {
        return wrong(s, Fault::UnknownWord);
    }
    Scan {
        mode: Mode::Word,
        token: s.token * 32 + (b - 96) as u64,
        ..s
    }
}

// A digit more; no field has more than four bytes.
fn numbered(s: Scan, b: u8) -> Scan
    requires { is_digit b ≡ true }
    ensures { result ≡ numbered s b }
{
    if s.token > 429496729 {
        return wrong(s, Fault::TooLarge);
    }
    Scan {
        mode: Mode::Number,
        token: s.token * 10 + (b - b'0') as u64,
        ..s
    }
}

// The first byte of a word or a number.
fn token_begun(s: Scan, b: u8) -> Scan
    ensures { result ≡ token_begun s b }
{
    if is_letter(b) {
        return lettered(s, b);
    }
    in_number(s, b)
}

fn in_gap(s: Scan, b: u8) -> Scan
    ensures { result ≡ byte_by Mode.Gap s b }
{
    if s.node == RAW_NODE {
        return hex_next(s, b);
    }
    token_begun(s, b)
}

fn in_word(s: Scan, b: u8) -> Scan
    ensures { result ≡ byte_by Mode.Word s b }
{
    if is_letter(b) {
        return lettered(s, b);
    }
    wrong(s, Fault::UnknownWord)
}

fn in_number(s: Scan, b: u8) -> Scan
    ensures { result ≡ byte_by Mode.Number s b }
{
    if is_digit(b) {
        return numbered(s, b);
    }
    wrong(s, Fault::UnknownWord)
}

// Any byte but a space and `#`.
fn byte_taken(s: Scan, b: u8) -> Scan
    ensures { result ≡ byte_by s.mode s b }
{
    match s.mode {
        Mode::Gap => in_gap(s, b),
        Mode::Word => in_word(s, b),
        Mode::Number => in_number(s, b),
        Mode::Comment | Mode::Wrong(_) => s,
    }
}

// A byte where no comment is and nothing is wrong. It stays a call of its own, so that a byte of a comment costs none.
#[inline(never)]
fn live_next(s: Scan, b: u8) -> Scan
    ensures { result ≡ live_next s b }
{
    if is_space(b) {
        return end_of(s);
    }
    if is_hash(b) {
        return noted(end_of(s));
    }
    byte_taken(s, b)
}

// One byte of a line more.
#[tactic(auto, unfolding(words::specs::Scan::scan_next))]
pub fn scan_next(s: Scan, b: u8) -> Scan
    ensures { result ≡ scan_next s b }
{
    match s.mode {
        Mode::Gap | Mode::Word | Mode::Number => live_next(s, b),
        Mode::Comment | Mode::Wrong(_) => s,
    }
}

fn is_record(s: Scan) -> bool
    ensures { result ≡ is_record s }
{
    if s.node == RAW_NODE {
        return s.digits == 32;
    }
    may_end(s.node)
}

fn ends_at(s: Scan) -> Result<Line, Fault>
    ensures { result ≡ ends_at s }
{
    if s.node == 0 {
        return Ok(Line::Blank);
    }
    if is_record(s) {
        return Ok(Line::Record);
    }
    Err(Fault::MissingField)
}

// What a line says whose last word or number has ended.
pub fn verdict_of(s: Scan) -> Result<Line, Fault>
    ensures { result ≡ verdict_of s }
{
    match s.mode {
        Mode::Wrong(f) => Err(f),
        _ => ends_at(s),
    }
}
