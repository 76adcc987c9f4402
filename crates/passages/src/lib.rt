// A passage slot is taken and freed: 2 begin, 16 retire.
// Each equals its definition in rules' specs/Passages.antt: the checks in the order of the refusal table, then the records that are left.
#![tactic(auto)]

ghost use Rattle.std.specs.Prelude.{◌≡◌};
ghost use Rattle.rules.specs.Sane.{Sane};
ghost use Rattle.rules.specs.Tables.{handle_of};
ghost use Rattle.rules.specs.Passages.{begun_passage, begun, begin_of, next_generation, retired, retire_of};

use checks::{bad_handle, bad_site, bad_times, clock_full, no_passage, refuse, settle, site_down};
use parts::passage::{free_slot, is_free, is_over};
use parts::visit::{clock_to, new_visit};
use rules::limits::SLOT_MOST;
use rules::looking::Seen;
use rules::outcomes::{Decision, Refusal};
use rules::tables::{Passage, Status};

// An active passage with this home, round 0, in the slot's generation.
fn begun_passage(home: u8, p: Passage) -> Passage
    ensures { result ≡ begun_passage home p }
{
    Passage {
        status: Status::Active,
        home,
        ..free_slot(p.generation)
    }
}

// slot + 16 * generation
fn handle_of(slot: u8, generation: u8) -> u64
    ensures { result ≡ handle_of slot generation }
{
    u64::from(slot) + 16 * u64::from(generation)
}

// 2. begin: an active passage and its home visit.
pub fn begin(home: u8, slot: u8, quiesce: u32, release: u32, seen: Seen) -> Decision
    requires { Sane seen }
    ensures { result ≡ begin_of home slot quiesce release seen }
{
    let clock = seen.site.clock + 1;
    let bad = bad_site(home) | (SLOT_MOST < slot) | bad_times(quiesce, release);
    let tried = refuse(Refusal::BadField, bad)
        .or(site_down(seen))
        .or(refuse(Refusal::WrongState, !is_free(seen.passage.status)))
        .or(clock_full(clock))
        .or(refuse(Refusal::Quiesced, u64::from(quiesce) <= clock));
    let handle = handle_of(slot, seen.passage.generation);
    settle(
        tried,
        handle,
        begun(home, quiesce, release, clock, seen),
        seen,
    )
}

// What a begin leaves at this clock.
fn begun(home: u8, quiesce: u32, release: u32, clock: u64, seen: Seen) -> Seen
    ensures { result ≡ begun home quiesce release clock seen }
{
    Seen {
        site: clock_to(seen.site, clock),
        passage: begun_passage(home, seen.passage),
        visit: new_visit(quiesce, release, 0),
        ..seen
    }
}

// 255 is followed by 0.
fn next_generation(generation: u8) -> u8
    ensures { result ≡ next_generation generation }
{
    generation.wrapping_add(1)
}

// What a retire leaves: the slot free, its generation moved on.
fn retired(seen: Seen) -> Seen
    ensures { result ≡ retired seen }
{
    Seen {
        passage: free_slot(next_generation(seen.passage.generation)),
        ..seen
    }
}

// 16. retire, where remains says whether a visit or message of the slot does.
pub fn retire(h: u16, remains: bool, seen: Seen) -> Decision
    ensures { result ≡ retire_of h remains seen }
{
    let over = is_over(seen.passage.status);
    let tried = refuse(Refusal::BadField, bad_handle(h))
        .or(no_passage(h, seen))
        .or(refuse(Refusal::WrongState, !over | remains));
    settle(tried, 0, retired(seen), seen)
}
