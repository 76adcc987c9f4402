// The steps that open a round: 4 refresh, 5 terminate, 6 prepare.
// Each equals its definition in rules' specs/Rounds.antt: the checks in the order of the refusal table, then the records that are left.
#![tactic(auto)]

ghost use Rattle.std.specs.Prelude.{◌≤◌, ◌≡◌};
ghost use Rattle.rules.specs.Sane.{Sane};
ghost use Rattle.rules.specs.Rounds.{opened_visit, opened_passage, opened, open_of, refresh_of, terminate_of, prepare_of};

use checks::{
    bad_handle, bad_times, clock_full, no_passage, refuse, settle, site_down, visit_missing,
};
use parts::passage::{is_aborted, is_active, is_running};
use parts::round::{asked_of, asked_status, opened_round, with_answer};
use parts::visit::{asked_visit, clock_to, figures_of};
use rules::limits::COUNT_MOST;
use rules::looking::Seen;
use rules::outcomes::{Decision, Refusal};
use rules::tables::{Kind, Passage, Visit};

// The home visit after home's own phase 1 part.
fn opened_visit(kind: Kind, clock: u64, seen: Seen) -> Visit
    requires { Sane seen }
    ensures { result ≡ opened_visit kind clock seen }
{
    let number = seen.passage.round.number + 1;
    asked_visit(asked_of(kind), number, clock, seen.visit)
}

// The passage with its round open, home's figures kept and home answering.
fn opened_passage(kind: Kind, p: Passage, v: Visit) -> Passage
    requires { (p.home ≤ 7) × (p.round.number ≤ 1000) }
    ensures { result ≡ opened_passage kind p v }
{
    let status = asked_status(asked_of(kind), p.status);
    let home = usize::from(p.home);
    let round = with_answer(opened_round(p.round, kind), home, figures_of(v));
    Passage { status, round, ..p }
}

// What opening a round leaves at this clock.
fn opened(kind: Kind, clock: u64, seen: Seen) -> Seen
    requires { Sane seen }
    ensures { result ≡ opened kind clock seen }
{
    let visit = opened_visit(kind, clock, seen);
    Seen {
        site: clock_to(seen.site, clock),
        passage: opened_passage(kind, seen.passage, visit),
        visit,
        ..seen
    }
}

// What refresh, terminate and prepare share: a round opens, unless a field is bad, the status wrong, or the rest of the table refuses.
fn open(h: u16, kind: Kind, bad: bool, wrong: bool, seen: Seen) -> Decision
    requires { Sane seen }
    ensures { result ≡ open_of h kind bad wrong seen }
{
    let number = seen.passage.round.number;
    let clock = seen.site.clock + 1;
    let tried = refuse(Refusal::BadField, bad)
        .or(no_passage(h, seen))
        .or(site_down(seen))
        .or(refuse(Refusal::WrongState, wrong))
        .or(visit_missing(seen))
        .or(clock_full(clock))
        .or(refuse(Refusal::NoRoundLeft, COUNT_MOST <= number));
    settle(
        tried,
        u64::from(number + 1),
        opened(kind, clock, seen),
        seen,
    )
}

// 4. refresh
pub fn refresh(h: u16, quiesce: u32, release: u32, seen: Seen) -> Decision
    requires { Sane seen }
    ensures { result ≡ refresh_of h quiesce release seen }
{
    let kind = Kind::Refresh { quiesce, release };
    let bad = bad_handle(h) | bad_times(quiesce, release);
    open(h, kind, bad, !is_active(seen.passage.status), seen)
}

// 5. terminate
pub fn terminate(h: u16, seen: Seen) -> Decision
    requires { Sane seen }
    ensures { result ≡ terminate_of h seen }
{
    let wrong = !is_aborted(seen.passage.status);
    open(h, Kind::Terminate, bad_handle(h), wrong, seen)
}

// 6. prepare
pub fn prepare(h: u16, seen: Seen) -> Decision
    requires { Sane seen }
    ensures { result ≡ prepare_of h seen }
{
    let wrong = !is_running(seen.passage.status);
    open(h, Kind::Prepare, bad_handle(h), wrong, seen)
}
