// A request to a check, read from its words.
// `read_request` equals its definition in specs/Requests.antt.
#![tactic(auto)]

ghost use Rattle.std.specs.Prelude.{◌≤◌, ◌<◌, min, ◌≡◌, ◌==◌, ◌∷◌, [], true, false, length, drop};
ghost use Rattle.std.specs.List.{position_or_len};
ghost use Rattle.std.specs.Option.{MatchOption, SomeIff};
ghost use Rattle.requests.specs.Requests.{word_at, same, is_number, number_of, asks, request_of};
ghost use Rattle.requests.specs.Walk.{words_left, listed};

// A longer text is not read.
const TEXT_MOST: usize = 65536;

// What a request asks. Of its objects the first nine, and how many they are:
// an array and a count, since `read_request` promises the request, and has no error for memory.
#[derive(Drop)]
pub struct Request {
    pub beam: u32,
    pub margin: u32,
    pub home: u8,
    pub slot: u8,
    pub quiesce: u32,
    pub release: u32,
    pub objects: [u8; 9],
    pub count: usize,
}

// A word's number.
#[tactic(auto, using(crate::proofs::Numbers::number_some, crate::proofs::Numbers::number_stops, crate::proofs::Numbers::number_over, crate::proofs::Numbers::number_more, crate::proofs::Numbers::digits_more, crate::proofs::Numbers::number_read))]
fn number_of(word: &[u8]) -> Option<u32>
    ensures { SomeIff result (is_number word.now ≡ true) (number_of word.now) }
{
    if word.is_empty() {
        return None;
    }
    let mut number: u32 = 0;
    for digit in word {
        if !digit.is_ascii_digit() {
            return None;
        }
        number = number
            .checked_mul(10)?
            .checked_add(u32::from(digit - b'0'))?;
    }
    Some(number)
}

// Above 255 it counts as 255.
fn byte_of(n: u32) -> u8
    ensures { result ≡ min 255 n }
{
    n.min(255) as u8
}

// Where the first word of a text ends: at the space behind it, or where the text does.
fn word_end(text: &[u8]) -> usize
    ensures { (result ≡ position_or_len (λ b. b == 32) text.now) × (result ≤ length text.now) }
{
    text.iter().take_while(|b| **b != b' ').count()
}

// The words of a text that are still to be read, one space between two of them.
#[derive(Drop)]
struct Words<'a> {
    rest: Option<&'a [u8]>,
}

impl<'a> Words<'a> {
    // The next word, and none behind the last.
    fn next(&mut self) -> Option<&'a [u8]>
        ensures { MatchOption result (words_left self.old.rest ≡ []) (λ word. words_left self.old.rest ≡ word.now ∷ words_left self.new.rest) }
    {
        let text = self.rest?;
        let end = word_end(text);
        self.rest = text.get(end + 1..);
        Some(&text[..end])
    }

    // Whether the next word is this name.
    fn name(&mut self, name: &[u8]) -> Option<()>
        requires { 0 < length name.now }
        ensures { MatchOption result (same (word_at 0 (words_left self.old.rest)) name.now ≡ false) (λ u. (same (word_at 0 (words_left self.old.rest)) name.now ≡ true) × (words_left self.new.rest ≡ drop 1 (words_left self.old.rest))) }
    {
        if self.next()? == name { Some(()) } else { None }
    }

    // The number that stands behind this name.
    fn number_behind(&mut self, name: &[u8]) -> Option<u32>
        requires { 0 < length name.now }
        ensures { MatchOption result (asks name.now 0 (words_left self.old.rest) ≡ false) (λ n. (asks name.now 0 (words_left self.old.rest) ≡ true) × (n ≡ number_of (word_at 1 (words_left self.old.rest))) × (words_left self.new.rest ≡ drop 2 (words_left self.old.rest))) }
    {
        self.name(name)?;
        number_of(self.next()?)
    }

    // The numbers that are left: the first nine, each at most 255, and how many they are.
    fn numbers(&mut self) -> Option<([u8; 9], usize)>
        ensures { result ≡ listed (words_left self.old.rest) }
    {
        let mut objects = [0u8; 9];
        let mut count: usize = 0;
        while let Some(word) = self.next() {
            let number = number_of(word)?;
            if count < 9 {
                objects[count] = byte_of(number);
                count += 1;
            }
        }
        Some((objects, count))
    }
}

pub fn read_request(text: &[u8]) -> Option<Request>
    ensures { result ≡ request_of text.now }
{
    if TEXT_MOST < text.len() {
        return None;
    }
    let mut words = Words { rest: Some(text) };
    let beam = words.number_behind(b"beam")?;
    let margin = words.number_behind(b"margin")?;
    let home = words.number_behind(b"home")?;
    let slot = words.number_behind(b"slot")?;
    let quiesce = words.number_behind(b"quiesce")?;
    let release = words.number_behind(b"release")?;
    words.name(b"objects")?;
    let (objects, count) = words.numbers()?;
    Some(Request {
        beam,
        margin,
        home: byte_of(home),
        slot: byte_of(slot),
        quiesce,
        release,
        objects,
        count,
    })
}
