// What was seen, as a whole: with its clock moved or another site in it, and what its message says of clock, slot and home.
// Each function equals the definition of the same name in rules' specs/Seen.antt or specs/Calls.antt.
ghost use Rattle.std.specs.Prelude.{◌≡◌};
ghost use Rattle.rules.specs.Sane.{Sane};
ghost use Rattle.rules.specs.Calls.{mail_clock, mail_slot, at_home};
ghost use Rattle.rules.specs.Seen.{at_clock, left_site};

use crate::visit::clock_to;
use rules::looking::Seen;
use rules::tables::Site;

// What was seen, with its site's clock moved to this one.
pub fn at_clock(seen: Seen, clock: u64) -> Seen
    ensures { result ≡ at_clock seen clock }
{
    Seen {
        site: clock_to(seen.site, clock),
        ..seen
    }
}

// What was seen, with another site.
pub fn left_site(seen: Seen, site: Site) -> Seen
    ensures { result ≡ left_site seen site }
{
    Seen { site, ..seen }
}

// The clock that a delivery moves to: past the site's own and past the stamp.
pub fn mail_clock(seen: Seen) -> u64
    requires { Sane seen }
    ensures { result ≡ mail_clock seen }
{
    seen.site.clock.max(seen.message.stamp) + 1
}

// The passage slot that the message is for.
pub fn mail_slot(seen: Seen) -> u8
    ensures { result ≡ mail_slot seen }
{
    (seen.message.handle % 16) as u8
}

// Whether the message is delivered at its passage's own home.
pub fn at_home(seen: Seen) -> bool
    ensures { result ≡ at_home seen }
{
    seen.message.destination == seen.passage.home
}
