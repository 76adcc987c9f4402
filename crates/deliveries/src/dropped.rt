// A message is lost.
ghost use Rattle.std.specs.Prelude.{◌≡◌};
ghost use Rattle.rules.specs.Calls.{lost, drop_of};

use checks::{bad_message, no_mail, refuse, settle};
use parts::message::no_message;
use rules::looking::Seen;
use rules::outcomes::{Decision, Refusal};

// What a drop leaves: the message slot empty.
fn lost(seen: Seen) -> Seen
    ensures { result ≡ lost seen }
{
    Seen {
        message: no_message(),
        ..seen
    }
}

// 12. drop
pub fn drop(m: u8, seen: Seen) -> Decision
    ensures { result ≡ drop_of m seen }
{
    let tried = refuse(Refusal::BadField, bad_message(m)).or(no_mail(seen));
    settle(tried, 0, lost(seen), seen)
}
