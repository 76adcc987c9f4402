// Where a step looks: its message slot, its passage slot, its site, and the site whose objects it sees.
// A remainder makes each place one that exists; a field out of range is refused by 2 before what was seen matters.
ghost use Rattle.std.specs.Prelude.{◌+◌, ◌<◌, ◌≡◌, cond, ◌||◌};
ghost use Rattle.rules.specs.Loops.{first_next};
ghost use Rattle.rules.specs.Parts.{is_empty};
ghost use Rattle.rules.specs.Machine.{looks, looks_home, looks_site, look_of, mail_place, slot_place, site_place, body_bank, bank_place, is_message_of};

use parts::message::is_empty;
use rules::limits::MESSAGE_MOST;
use rules::looking::{Look, MailAt, SiteAt, SlotAt, Trip};
use rules::steps::Step;
use rules::tables::{Body, Message, Passage, Visit};

// A step for a handle acts at its home.
fn looks_home(mail: MailAt, h: u16) -> Look
    ensures { result ≡ looks_home mail h }
{
    Look {
        mail,
        slot: SlotAt::Given(h),
        site: SiteAt::Home,
        trip: Trip::Nowhere,
    }
}

// A step of one site alone.
pub fn looks_site(site: u8, trip: Trip) -> Look
    ensures { result ≡ looks_site site trip }
{
    Look {
        mail: MailAt::Nowhere,
        slot: SlotAt::Given(0),
        site: SiteAt::Given(site),
        trip,
    }
}

// A step whose message names everything.
fn looks_mail(m: u8) -> Look
    ensures { result ≡ looks (MailAt.Given m) SlotAt.Mail SiteAt.Mail Trip.Nowhere }
{
    Look {
        mail: MailAt::Given(m),
        slot: SlotAt::Mail,
        site: SiteAt::Mail,
        trip: Trip::Nowhere,
    }
}

// A step that names its slot and its site.
pub fn looks_both(mail: MailAt, h: u16, site: u8) -> Look
    ensures { result ≡ looks mail (SlotAt.Given h) (SiteAt.Given site) Trip.Nowhere }
{
    Look {
        mail,
        slot: SlotAt::Given(h),
        site: SiteAt::Given(site),
        trip: Trip::Nowhere,
    }
}

// Where each of the sixteen steps looks.
pub fn look_of(step: Step) -> Look
    ensures { result ≡ look_of step }
{
    match step {
        Step::Tick { site, .. } | Step::Recover { site } => looks_site(site, Trip::Nowhere),
        Step::Sweep { site } => looks_site(site, Trip::Sweep(site)),
        Step::Crash { site } => looks_site(site, Trip::Crash(site)),
        Step::Begin { home, slot, .. } => looks_both(MailAt::Nowhere, u16::from(slot), home),
        Step::Invoke { handle, site, .. } => looks_both(MailAt::Empty, handle, site),
        Step::Refresh { handle, .. }
        | Step::Terminate { handle }
        | Step::Prepare { handle }
        | Step::Close { handle }
        | Step::Abort { handle }
        | Step::Retire { handle } => looks_home(MailAt::Nowhere, handle),
        Step::Ask { handle, .. } | Step::Tell { handle, .. } => looks_home(MailAt::Empty, handle),
        Step::Deliver { message } | Step::Drop { message } => looks_mail(message),
    }
}

// This index where the message is empty, else the next.
fn here_or_next(i: usize, empty: bool) -> usize
    requires { i < 32 }
    ensures { result ≡ cond empty i (i + 1) }
{
    if empty { i } else { i + 1 }
}

// One turn of the search for the lowest empty message slot: the slot found so far, and the message at i.
pub fn first_next(found: usize, i: usize, m: Message) -> usize
    requires { i < 32 }
    ensures { result ≡ first_next found i (is_empty m.body) }
{
    if found == i {
        here_or_next(i, is_empty(m.body))
    } else {
        found
    }
}

pub fn is_message_of(slot: usize, m: Message) -> bool
    ensures { result ≡ is_message_of slot m }
{
    !is_empty(m.body) & (usize::from(m.handle % 16) == slot)
}

// One step of the search for what remains of a passage slot: so far, or this message of it, or this visit of it.
pub fn rest_next(rest: bool, slot: usize, m: Message, v: Visit) -> bool
    ensures { result ≡ (rest || (is_message_of slot m || v.there)) }
{
    rest | is_message_of(slot, m) | v.there
}

// The message slot, where e is the lowest empty one.
pub fn mail_place(at: MailAt, e: usize) -> usize
    ensures { (result ≡ mail_place at e) × (result < 32) }
{
    match at {
        MailAt::Nowhere => 0,
        MailAt::Given(m) => usize::from(m % 32),
        MailAt::Empty => e.min(usize::from(MESSAGE_MOST)),
    }
}

pub fn slot_place(at: SlotAt, m: Message) -> usize
    ensures { (result ≡ slot_place at m) × (result < 16) }
{
    match at {
        SlotAt::Given(h) => usize::from(h % 16),
        SlotAt::Mail => usize::from(m.handle % 16),
    }
}

pub fn site_place(at: SiteAt, m: Message, p: Passage) -> usize
    ensures { (result ≡ site_place at m p) × (result < 8) }
{
    match at {
        SiteAt::Given(s) => usize::from(s % 8),
        SiteAt::Home => usize::from(p.home % 8),
        SiteAt::Mail => usize::from(m.destination % 8),
    }
}

// A call's object stands at its own site.
fn body_bank(body: Body, s: usize) -> usize
    requires { s < 8 }
    ensures { (result ≡ body_bank body s) × (result < 8) }
{
    match body {
        Body::Call(call) => usize::from(call.object / 4 % 8),
        Body::Empty
        | Body::PhaseOne { .. }
        | Body::PhaseTwo { .. }
        | Body::Answer { .. }
        | Body::Reply { .. } => s,
    }
}

// The site whose four objects are seen.
pub fn bank_place(at: SiteAt, m: Message, s: usize) -> usize
    requires { s < 8 }
    ensures { (result ≡ bank_place at m s) × (result < 8) }
{
    match at {
        SiteAt::Given(_) | SiteAt::Home => s,
        SiteAt::Mail => body_bank(m.body, s),
    }
}
