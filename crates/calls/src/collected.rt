// The reply to a call is collected.
ghost use Rattle.std.specs.Prelude.{◌≡◌};
ghost use Rattle.rules.specs.Sane.{Sane};
ghost use Rattle.rules.specs.Calls.{collected, deliver_reply_of};

use checks::{bad_message, clock_full, refuse, settle, site_down};
use parts::message::no_message;
use parts::seen::mail_clock;
use parts::visit::clock_to;
use rules::looking::Seen;
use rules::outcomes::{Decision, Refusal};

// What a delivered reply leaves: the clock moved to this one, and the message slot empty.
fn collected(clock: u64, seen: Seen) -> Seen
    ensures { result ≡ collected clock seen }
{
    Seen {
        site: clock_to(seen.site, clock),
        message: no_message(),
        ..seen
    }
}

// 11. deliver of a reply: it gives the value that the call found.
pub fn deliver_reply(m: u8, value: u32, seen: Seen) -> Decision
    requires { Sane seen }
    ensures { result ≡ deliver_reply_of m value seen }
{
    let clock = mail_clock(seen);
    let tried = refuse(Refusal::BadField, bad_message(m))
        .or(site_down(seen))
        .or(clock_full(clock));
    settle(tried, u64::from(value), collected(clock, seen), seen)
}
