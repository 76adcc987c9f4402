// A passage is given up: 10 abort.
// It equals its definition in rules' specs/Passages.antt: the checks in the order of the refusal table, then the records that are left.
#![tactic(auto)]

ghost use Rattle.std.specs.Prelude.{◌≡◌};
ghost use Rattle.rules.specs.Sane.{Sane};
ghost use Rattle.rules.specs.Passages.{aborted, abort_of};

use checks::{bad_handle, clock_full, no_passage, refuse, settle, site_down};
use parts::passage::{aborted_passage, is_running};
use parts::visit::{clock_to, quieted, where_there};
use rules::looking::Seen;
use rules::outcomes::{Decision, Refusal};

// What an abort leaves at this clock: the passage aborted, its home visit quiet and unprepared.
fn aborted(clock: u64, seen: Seen) -> Seen
    ensures { result ≡ aborted clock seen }
{
    let visit = seen.visit;
    Seen {
        site: clock_to(seen.site, clock),
        passage: aborted_passage(seen.passage),
        visit: where_there(visit, quieted(visit, clock, false, visit.dead)),
        ..seen
    }
}

// 10. abort
pub fn abort(h: u16, seen: Seen) -> Decision
    requires { Sane seen }
    ensures { result ≡ abort_of h seen }
{
    let clock = seen.site.clock + 1;
    let running = is_running(seen.passage.status);
    let tried = refuse(Refusal::BadField, bad_handle(h))
        .or(no_passage(h, seen))
        .or(site_down(seen))
        .or(refuse(Refusal::WrongState, !running))
        .or(clock_full(clock));
    settle(tried, 0, aborted(clock, seen), seen)
}
