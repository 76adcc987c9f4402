// The line of an object, looked up in a station's own list and then in the company's, as a part of the caller's own bytes.
// `line_for` equals its definition in specs/Names.antt.
#![tactic(auto)]

ghost use Rattle.std.specs.Prelude.{◌<◌, ◌≤◌, ◌≡◌, ◌==◌, ◌∷◌, [], true, length};
ghost use Rattle.std.specs.Option.{MatchOption, SomeIff};
ghost use Rattle.std.specs.List.{list_all, prefix_len, position_or_len};
ghost use Rattle.names.specs.Names.{is_digit, number_of, matches, lines_of, first_match, line_for};

// The number of some digits, where there are any and it is a byte's.
#[tactic(auto, using(crate::proofs::Lines::number_large, crate::proofs::Lines::number_more, crate::proofs::Lines::number_end))]
fn number_of(digits: &[u8]) -> Option<u8>
    requires { list_all is_digit digits.now ≡ true }
    ensures { SomeIff result ((0 < length digits.now) × (number_of digits.now < 256)) (number_of digits.now) }
{
    if digits.is_empty() {
        return None;
    }
    let mut number: u8 = 0;
    for digit in digits {
        number = number.checked_mul(10)?.checked_add(digit - b'0')?;
    }
    Some(number)
}

// How many digits a line begins with.
fn digit_count(line: &[u8]) -> usize
    ensures { (result ≡ prefix_len is_digit line.now) × (result ≤ length line.now) }
{
    line.iter().take_while(|b| b.is_ascii_digit()).count()
}

// Whether a line begins with the object's number and a space.
#[tactic(auto, using(crate::proofs::Lines::digits_only))]
fn matches_line(line: &[u8], object: u8) -> bool
    ensures { result ≡ matches object line.now }
{
    let (digits, behind) = line.split_at(digit_count(line));
    number_of(digits) == Some(object) && behind.starts_with(b" ")
}

// Where a list's first line ends: at its newline, or where the list does.
fn line_end(list: &[u8]) -> usize
    ensures { (result ≡ position_or_len (λ b. b == 10) list.now) × (result ≤ length list.now) }
{
    list.iter().take_while(|b| **b != b'\n').count()
}

// A list's first line, without its newline, and what stands behind it.
#[tactic(auto, using(crate::proofs::Lines::line_split_off))]
fn split_line(list: &[u8]) -> Option<(&[u8], &[u8])>
    ensures { MatchOption result (list.now ≡ []) (λ r. (lines_of list.now ≡ r.0.now ∷ lines_of r.1.now) × (length r.1.now < length list.now)) }
{
    if list.is_empty() {
        return None;
    }
    let end = line_end(list);
    let next = list.len().min(end + 1);
    Some((&list[..end], &list[next..]))
}

// The first line of a list that matches, without its newline.
// Lines are cut off one by one, since what is left is a list again, and its lines are the rest of them.
#[tactic(auto, using(crate::proofs::Lines::match_later, crate::proofs::Lines::match_none))]
fn first_match(list: &[u8], object: u8) -> Option<&[u8]>
    ensures { MatchOption result (first_match object (lines_of list.now) ≡ []) (λ line. (first_match object (lines_of list.now) ≡ line.now) × (0 < length line.now)) }
{
    let mut rest = list;
    while let Some((line, behind)) = split_line(rest) {
        if matches_line(line, object) {
            return Some(line);
        }
        rest = behind;
    }
    None
}

// A station's own list stands before the company's. A miss is the company's empty end.
#[tactic(auto, using(crate::proofs::HandedBack::station_first, crate::proofs::HandedBack::company_next))]
pub fn line_for<'a>(station: &'a [u8], company: &'a [u8], object: u8) -> &'a [u8]
    ensures { result.now ≡ line_for station.now company.now object }
{
    match first_match(station, object) {
        Some(line) => line,
        None => first_match(company, object).unwrap_or(&company[company.len()..]),
    }
}
