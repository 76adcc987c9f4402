// A line of a text, and where in it the fault fell.
ghost use Rattle.std.specs.Prelude.{◌≤◌, ◌≡◌, ◌||◌, length, take, drop};
ghost use Rattle.std.specs.List.{before_first};
ghost use Rattle.words.specs.Scan.{is_space, is_hash};
ghost use Rattle.words.specs.Faults.{line_behind, from_by, fault_in, no_word, place_in};

use scanning::bytes::{is_hash, is_space};
use scanning::line::{blank, end_of, scan_next};
use words::scan::Mode;

// The line behind so many others, without its newline.
pub(crate) fn line_behind(text: &[u8], lines: u32) -> &[u8]
    ensures { result.now ≡ line_behind lines text.now }
{
    text.split(|b| *b == b'\n')
        .nth(lines as usize)
        .unwrap_or(&[])
}

// Where a word or a number is under way, or one was wrong, its first byte; else the next byte.
fn from_by(mode: Mode, from: usize, rest: usize) -> usize
    ensures { result ≡ from_by mode from rest }
{
    match mode {
        Mode::Gap | Mode::Comment => rest,
        _ => from,
    }
}

// Where in a line the fault fell: what stands there, from the first byte of the word or number on, and the place in the grammar.
#[derive(Clone, Copy)]
pub(crate) struct Spot<'a> {
    pub rest: &'a [u8],
    pub node: u8,
}

// The line is scanned again.
pub(crate) fn spot_in(line: &[u8]) -> Spot<'_>
    ensures rest { result.rest.now ≡ fault_in line.now }
    ensures node { result.node ≡ place_in line.now }
{
    let mut s = blank();
    let mut from = 0;
    for (i, b) in line.iter().enumerate() {
        s = scan_next(s, *b);
        from = from_by(s.mode, from, i + 1);
    }
    let ended = end_of(s);
    let from = from_by(ended.mode, from, line.len());
    Spot {
        rest: &line[from..],
        node: ended.node,
    }
}

// Whether no word and no number stands there.
pub(crate) fn no_word(rest: &[u8]) -> bool
    ensures { result ≡ no_word rest.now }
{
    match rest.first() {
        Some(b) => is_space(*b) || is_hash(*b),
        None => true,
    }
}

// The front of these bytes up to where a word or a number ends.
pub(crate) fn word_of(bytes: &[u8]) -> &[u8]
    ensures { result.now ≡ before_first (λ b. is_space b || is_hash b) bytes.now }
{
    let end = bytes.iter().position(|b| is_space(*b) || is_hash(*b));
    &bytes[..end.unwrap_or(bytes.len())]
}
