// Time passes at a station: 1 tick, 13 sweep.
// Each equals its definition in rules' specs/Stations.antt: the checks in the order of the refusal table, then the records that are left.
#![tactic(auto)]

ghost use Rattle.std.specs.Prelude.{◌≡◌};
ghost use Rattle.rules.specs.Sane.{Sane};
ghost use Rattle.rules.specs.Stations.{tick_of, sweep_of, is_swept, swept_passage, swept_slot};

use checks::{bad_site, clock_full, refuse, settle, site_down};
use parts::object::restored_all;
use parts::passage::{aborted_passage, is_active};
use parts::seen::at_clock;
use parts::visit::no_visit;
use rules::limits::TICK_MOST;
use rules::looking::Seen;
use rules::outcomes::{Decision, Refusal};
use rules::tables::Passage;

// 1. tick: the clock moves by n.
#[tactic(auto, using(checks::specs::OrderLaws::settled_first), unfolding(rules::specs::Stations::tick_of))]
pub fn tick(site: u8, n: u32, seen: Seen) -> Decision
    requires { Sane seen }
    ensures { result ≡ tick_of site n seen }
{
    let clock = seen.site.clock + u64::from(n);
    let tried = refuse(
        Refusal::BadField,
        bad_site(site) | (n == 0) | (TICK_MOST < n),
    )
    .or(site_down(seen))
    .or(clock_full(clock));
    settle(tried, clock, at_clock(seen, clock), seen)
}

// 13. sweep: the clock moves; then each slot of the site is swept.
#[tactic(auto, using(checks::specs::OrderLaws::settled_first), unfolding(rules::specs::Stations::sweep_of))]
pub fn sweep(site: u8, seen: Seen) -> Decision
    requires { Sane seen }
    ensures { result ≡ sweep_of site seen }
{
    let clock = seen.site.clock + 1;
    let tried = refuse(Refusal::BadField, bad_site(site))
        .or(site_down(seen))
        .or(clock_full(clock));
    settle(tried, 0, at_clock(seen, clock), seen)
}

// Whether a slot's visit is swept: there, unprepared, and its release time has come.
pub fn is_swept(seen: Seen) -> bool
    ensures { result ≡ is_swept seen }
{
    let visit = seen.visit;
    visit.there & !visit.prepared & (u64::from(visit.release) <= seen.site.clock)
}

// An active passage that loses its home visit is aborted.
fn swept_passage(site: u8, p: Passage) -> Passage
    ensures { result ≡ swept_passage site p }
{
    if is_active(p.status) & (p.home == site) {
        aborted_passage(p)
    } else {
        p
    }
}

// One slot of a sweep: its objects at the site are restored and freed, its visit goes.
#[tactic(auto, unfolding(rules::specs::Stations::swept_slot))]
pub fn swept_slot(site: u8, slot: u8, seen: Seen) -> Seen
    ensures { result ≡ swept_slot site slot seen }
{
    if is_swept(seen) {
        Seen {
            passage: swept_passage(site, seen.passage),
            visit: no_visit(),
            objects: restored_all(slot, seen.objects),
            ..seen
        }
    } else {
        seen
    }
}
