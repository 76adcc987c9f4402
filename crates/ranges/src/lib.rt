// Number 20: whether every number of every table is in its range.
#![tactic(auto)]

ghost use Rattle.std.specs.Prelude.{◌≡◌};
ghost use Rattle.rules.specs.Ranges.{site_in_range, holder_in_range, object_in_range, counts_in_range, figures_in_range, kind_in_range, phase_fits, round_in_range, passage_in_range, visit_in_range, call_in_range, asked_in_range, told_in_range, body_in_range, message_in_range, in_range};

use rules::limits::{
    CLOCK_MOST, COUNT_MOST, HANDLE_MOST, OBJECT_MOST, SITE_MOST, SLOT_MOST, TIME_MOST, WIDTH_MOST,
};
use rules::tables::{
    Asked, Body, Call, Figures, Kind, Message, Object, Passage, Phase, Round, Site, Tables, Told,
    Visit,
};

fn site_in_range(s: Site) -> bool
    ensures { result ≡ site_in_range s }
{
    s.clock <= CLOCK_MOST
}

fn holder_in_range(o: Object) -> bool
    ensures { result ≡ holder_in_range o }
{
    o.holder.is_none_or(|p| p <= SLOT_MOST)
}

fn object_in_range(o: Object) -> bool
    ensures { result ≡ object_in_range o }
{
    (o.value <= WIDTH_MOST) & (o.before <= WIDTH_MOST) & holder_in_range(o)
}

// All eight are looked at: with `all`, which stops at the first that is not, the test of whole tables takes three times as long.
fn counts_in_range(sent: &[u16; 8]) -> bool
    ensures { result ≡ counts_in_range sent.now }
{
    sent.iter().fold(true, |ok, n| ok & (*n <= COUNT_MOST))
}

fn figures_in_range(f: &Figures) -> bool
    ensures { result ≡ figures_in_range f.now }
{
    counts_in_range(&f.sent) & (f.received <= COUNT_MOST) & (f.quiesce <= TIME_MOST)
}

fn kind_in_range(k: Kind) -> bool
    ensures { result ≡ kind_in_range k }
{
    match k {
        Kind::Refresh { quiesce, release } => (quiesce <= TIME_MOST) & (release <= TIME_MOST),
        Kind::None | Kind::Terminate | Kind::Prepare => true,
    }
}

// Kind none stands only in phase none.
fn phase_fits(k: Kind, p: Phase) -> bool
    ensures { result ≡ phase_fits k p }
{
    match k {
        Kind::None => p == Phase::None,
        Kind::Refresh { .. } | Kind::Terminate | Kind::Prepare => true,
    }
}

fn round_in_range(r: &Round) -> bool
    ensures { result ≡ round_in_range r.now }
{
    (r.number <= COUNT_MOST)
        & kind_in_range(r.kind)
        & phase_fits(r.kind, r.phase)
        & r.figures.iter().all(figures_in_range)
}

fn passage_in_range(p: &Passage) -> bool
    ensures { result ≡ passage_in_range p.now }
{
    (p.home <= SITE_MOST) & round_in_range(&p.round)
}

fn visit_in_range(v: &Visit) -> bool
    ensures { result ≡ visit_in_range v.now }
{
    (v.quiesce <= TIME_MOST)
        & (v.release <= TIME_MOST)
        & (v.round <= COUNT_MOST)
        & counts_in_range(&v.sent)
        & (v.received <= COUNT_MOST)
}

fn call_in_range(c: Call) -> bool
    ensures { result ≡ call_in_range c }
{
    (c.quiesce <= TIME_MOST)
        & (c.release <= TIME_MOST)
        & (c.round <= COUNT_MOST)
        & (c.object <= OBJECT_MOST)
        & (c.value <= WIDTH_MOST)
}

fn asked_in_range(a: Asked) -> bool
    ensures { result ≡ asked_in_range a }
{
    match a {
        Asked::Refresh(release) => release <= TIME_MOST,
        Asked::Terminate | Asked::Prepare => true,
    }
}

fn told_in_range(t: Told) -> bool
    ensures { result ≡ told_in_range t }
{
    match t {
        Told::Refresh(time) | Told::Terminate(time) => time <= TIME_MOST,
        Told::Prepare => true,
    }
}

fn body_in_range(b: Body) -> bool
    ensures { result ≡ body_in_range b }
{
    match b {
        Body::Empty => true,
        Body::Call(c) => call_in_range(c),
        Body::PhaseOne { number, asked } => (number <= COUNT_MOST) & asked_in_range(asked),
        Body::PhaseTwo { number, told } => (number <= COUNT_MOST) & told_in_range(told),
        Body::Answer {
            number,
            received,
            quiesce,
        } => (number <= COUNT_MOST) & (received <= COUNT_MOST) & (quiesce <= TIME_MOST),
        Body::Reply { value } => value <= WIDTH_MOST,
    }
}

fn message_in_range(m: &Message) -> bool
    ensures { result ≡ message_in_range m.now }
{
    (m.source <= SITE_MOST)
        & (m.destination <= SITE_MOST)
        & (m.handle <= HANDLE_MOST)
        & (m.stamp <= CLOCK_MOST)
        & counts_in_range(&m.sent)
        & body_in_range(m.body)
}

// The test for number 20.
pub fn in_range(t: Tables) -> bool
    ensures { result ≡ in_range t }
{
    t.sites.iter().all(|s| site_in_range(*s))
        & t.objects.iter().all(|o| object_in_range(*o))
        & t.passages.iter().all(passage_in_range)
        & t.visits.iter().all(visit_in_range)
        & t.messages.iter().all(message_in_range)
}
