// A page: a text under way in the caller's buffer, and what is put behind it: bytes as they stand, a number's digits,
// a word's letters, the lines of the listing.
#![tactic(auto)]

ghost use Rattle.std.specs.Prelude.{◌≡◌, ◌+◌, ◌≤◌, ◌<◌, [], ◌∷◌, length};
ghost use Rattle.rules.specs.Listing.{spelt, digits_of, decimal_of, sheet_line};
ghost use Rattle.buffer.specs.Text.{numbers_line};

// The text is the first `len` bytes of the buffer.
#[derive(Drop)]
pub struct Page<'a> {
    out: &'a mut [u8],
    len: usize,
    ghost fits: { len ≤ length out.now },
}

impl<'a> Page<'a> {
    ghost use Rattle.buffer.specs.Page.{Begins, HasRoom, IsEmpty, Writes};

    // With no text yet.
    pub fn new(out: &'a mut [u8]) -> Page<'a>
        ensures { IsEmpty result out.entry }
    {
        Page::behind(out, 0)
    }

    // With the first `at` bytes of the buffer for its text.
    pub fn behind(out: &'a mut [u8], at: usize) -> Page<'a>
        requires { at ≤ length out.old }
        ensures { Begins result at out.entry }
    {
        Page { out, len: at }
    }

    pub fn len(&self) -> usize
        ensures { result ≡ self.now.len }
    {
        self.len // The buffer may be longer.
    }

    pub fn put_byte(&mut self, byte: u8)
        requires { HasRoom self.old 1 }
        ensures { Writes self.old self.new (byte ∷ []) }
    {
        self.out[self.len] = byte;
        self.len += 1;
    }

    // All bytes of `text`, as they stand.
    pub fn put_text(&mut self, text: &[u8])
        requires { HasRoom self.old (length text.now) }
        ensures { Writes self.old self.new text.now }
    {
        let end = self.len + text.len();
        self.out[self.len..end].copy_from_slice(text);
        self.len = end;
    }

    // A number in a base, in at most `left` signs; the sign of 0 has the code `first`.
    // All but the last sign are put first, and then the last.
    #[tactic(auto, using(rules::proofs::ListingLaws::spelt_length))]
    fn put_spelt(&mut self, base: u64, first: u64, left: usize, n: u64)
        requires { HasRoom self.old left × (0 < base) × (first + base ≤ 256) }
        ensures { Writes self.old self.new (spelt base first left n) }
    {
        if left == 0 {
            return;
        }
        if n < base {
            self.put_byte((first + n) as u8);
            return;
        }
        self.put_spelt(base, first, left - 1, n / base);
        self.put_byte((first + n % base) as u8);
    }

    // The digits of a number, at most `left`.
    pub fn put_digits(&mut self, left: usize, n: u64)
        requires { HasRoom self.old left }
        ensures { Writes self.old self.new (digits_of left n) }
    {
        self.put_spelt(10, 48, left, n);
    }

    // The letters of a word, at most `left`. A word is a number in the base 32, with `a` for 1.
    pub fn put_letters(&mut self, left: usize, w: u64)
        requires { HasRoom self.old left }
        ensures { Writes self.old self.new (spelt 32 96 left w) }
    {
        self.put_spelt(32, 96, left, w);
    }

    // Twenty digits are enough for any number of 64 bits.
    fn put_decimal(&mut self, n: u64)
        requires { HasRoom self.old 20 }
        ensures { Writes self.old self.new (decimal_of n) }
    {
        self.put_digits(20, n);
    }

    // A space and a number.
    fn put_field(&mut self, n: u64)
        requires { HasRoom self.old 21 }
        ensures { Writes self.old self.new (32 ∷ decimal_of n) }
    {
        self.put_byte(b' ');
        self.put_decimal(n);
    }

    // The line of one record: its place from 1, its refusal number and its value, single spaces and a newline.
    #[tactic(auto, using(rules::proofs::ListingLaws::spelt_length))]
    pub fn put_line(&mut self, place: u64, number: u64, value: u64)
        requires { HasRoom self.old 64 }
        ensures { Writes self.old self.new (numbers_line place number value) }
    {
        self.put_decimal(place);
        self.put_field(number);
        self.put_field(value);
        self.put_byte(b'\n');
    }

    // The one line of a refused sheet.
    #[tactic(auto, using(rules::proofs::ListingLaws::spelt_length))]
    pub fn put_sheet_line(&mut self, number: u64)
        requires { HasRoom self.old 64 }
        ensures { Writes self.old self.new (sheet_line number) }
    {
        self.put_text(b"sheet ");
        self.put_decimal(number);
        self.put_byte(b'\n');
    }
}
