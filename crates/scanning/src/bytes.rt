// What a byte may be.
ghost use Rattle.std.specs.Prelude.{◌≡◌, cond, ltb};
ghost use Rattle.words.specs.Scan.{is_space, is_hash, is_letter, is_digit, hex_value};

// A space, a tab or a carriage return.
pub fn is_space(b: u8) -> bool
    ensures { result ≡ is_space b }
{
    matches!(b, b' ' | b'\t' | b'\r')
}

pub fn is_hash(b: u8) -> bool
    ensures { result ≡ is_hash b }
{
    b == b'#'
}

pub fn is_letter(b: u8) -> bool
    ensures { result ≡ is_letter b }
{
    b.is_ascii_lowercase()
}

pub fn is_digit(b: u8) -> bool
    ensures { result ≡ is_digit b }
{
    b.is_ascii_digit()
}

// A hex digit's number, in small or capital letters.
pub(crate) fn hex_value(b: u8) -> Option<u32>
    ensures { result ≡ cond (ltb (hex_value b) 16) (Some (hex_value b)) None }
{
    (b as char).to_digit(16)
}
