// The steps of an outage: 14 crash, 15 recover.
// Each equals its definition in rules' specs/Stations.antt: the checks in the order of the refusal table, then the records that are left.
#![tactic(auto)]

ghost use Rattle.std.specs.Prelude.{◌≡◌};
ghost use Rattle.rules.specs.Sane.{Sane};
ghost use Rattle.rules.specs.Stations.{crash_of, loses_home, crashed_visit, crashed_passage, crashed_slot, recover_of};

use checks::{bad_site, clock_full, refuse, settle, site_down};
use parts::passage::{aborted_passage, is_running};
use parts::seen::left_site;
use parts::visit::{quieted, where_there};
use rules::looking::Seen;
use rules::outcomes::{Decision, Refusal};
use rules::tables::{Passage, Site, Visit};

// 14. crash: the clock moves and the site is down; then each slot of the site is quieted.
pub fn crash(site: u8, seen: Seen) -> Decision
    requires { Sane seen }
    ensures { result ≡ crash_of site seen }
{
    let clock = seen.site.clock + 1;
    let tried = refuse(Refusal::BadField, bad_site(site))
        .or(site_down(seen))
        .or(clock_full(clock));
    let down = Site { clock, up: false };
    settle(tried, 0, left_site(seen, down), seen)
}

// A running passage whose home this is.
fn loses_home(site: u8, p: Passage) -> bool
    ensures { result ≡ loses_home site p }
{
    is_running(p.status) & (p.home == site)
}

fn crashed_visit(homeless: bool, clock: u64, v: Visit) -> Visit
    ensures { result ≡ crashed_visit homeless clock v }
{
    if homeless | !v.prepared {
        quieted(v, clock, false, true)
    } else {
        v
    }
}

fn crashed_passage(homeless: bool, p: Passage) -> Passage
    ensures { result ≡ crashed_passage homeless p }
{
    if homeless { aborted_passage(p) } else { p }
}

// One slot of a crash: its visit is quieted and dead, and a passage that loses its home is aborted.
#[tactic(auto, unfolding(rules::specs::Stations::crashed_slot))]
pub fn crashed_slot(site: u8, slot: u8, seen: Seen) -> Seen
    ensures { result ≡ crashed_slot site slot seen }
{
    let homeless = loses_home(site, seen.passage);
    let quiet = crashed_visit(homeless, seen.site.clock, seen.visit);
    Seen {
        passage: crashed_passage(homeless, seen.passage),
        visit: where_there(seen.visit, quiet),
        ..seen
    }
}

// 15. recover: up again.
pub fn recover(site: u8, seen: Seen) -> Decision
    requires { Sane seen }
    ensures { result ≡ recover_of site seen }
{
    let clock = seen.site.clock + 1;
    let tried = refuse(Refusal::BadField, bad_site(site))
        .or(refuse(Refusal::WrongState, seen.site.up))
        .or(clock_full(clock));
    let up = Site { clock, up: true };
    settle(tried, 0, left_site(seen, up), seen)
}
