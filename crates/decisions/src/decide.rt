// What each of the sixteen steps decides from what it saw.
ghost use Rattle.std.specs.Prelude.{◌≡◌};
ghost use Rattle.rules.specs.Sane.{Sane};
ghost use Rattle.rules.specs.Machine.{decide_of};

use aborts::abort;
use calls::invoked::invoke;
use closing::close;
use deliveries::delivered::deliver;
use deliveries::dropped::drop;
use opening::{prepare, refresh, terminate};
use outages::{crash, recover};
use passages::{begin, retire};
use rounds::{ask, tell};
use rules::looking::{Found, Seen};
use rules::outcomes::Decision;
use rules::steps::Step;
use stations::{sweep, tick};

// The decision, from what looking found and saw.
#[tactic(auto, unfolding(rules::specs::Machine::decide_of))]
pub fn decide(step: Step, found: Found, seen: Seen) -> Decision
    requires { Sane seen }
    ensures { result ≡ decide_of step found seen }
{
    match step {
        Step::Tick { site, n } => tick(site, n, seen),
        Step::Begin {
            home,
            slot,
            quiesce,
            release,
        } => begin(home, slot, quiesce, release, seen),
        Step::Invoke {
            handle,
            site,
            write,
            object,
            value,
        } => invoke(handle, site, write, object, value, found.place, seen),
        Step::Refresh {
            handle,
            quiesce,
            release,
        } => refresh(handle, quiesce, release, seen),
        Step::Terminate { handle } => terminate(handle, seen),
        Step::Prepare { handle } => prepare(handle, seen),
        Step::Ask { handle, site } => ask(handle, site, found.place, seen),
        Step::Close { handle } => close(handle, seen),
        Step::Tell { handle, site } => tell(handle, site, found.place, seen),
        Step::Abort { handle } => abort(handle, seen),
        Step::Deliver { message } => deliver(message, seen),
        Step::Drop { message } => drop(message, seen),
        Step::Sweep { site } => sweep(site, seen),
        Step::Crash { site } => crash(site, seen),
        Step::Recover { site } => recover(site, seen),
        Step::Retire { handle } => retire(handle, found.remains, seen),
    }
}
