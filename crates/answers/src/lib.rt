// The number and the value of an answer, as documents 01 and 02 give them.
#![tactic(auto)]

ghost use Rattle.std.specs.Prelude.{◌≡◌};
ghost use Rattle.rules.specs.Answers.{refusal_number, answer_number, answer_value};

use rules::outcomes::{Answer, Refusal};

pub fn refusal_number(r: Refusal) -> u64
    ensures { result ≡ refusal_number r }
{
    r as u64
}

pub fn answer_number(a: Answer) -> u64
    ensures { result ≡ answer_number a }
{
    match a {
        Ok(_) => 0,
        Err(refusal) => refusal_number(refusal),
    }
}

// A refusal carries value 0.
pub fn answer_value(a: Answer) -> u64
    ensures { result ≡ answer_value a }
{
    a.unwrap_or(0)
}
