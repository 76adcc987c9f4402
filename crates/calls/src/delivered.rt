// A call arrives.
ghost use Rattle.std.specs.Prelude.{◌≡◌};
ghost use Rattle.rules.specs.Sane.{Sane};
ghost use Rattle.rules.specs.Calls.{called_visit, called_object, reply_to, called, deliver_call_of};

use checks::{bad_message, clock_full, refuse, settle, site_down};
use parts::message::plain_message;
use parts::object::{is_held_by_other, operated, taken};
use parts::seen::{mail_clock, mail_slot};
use parts::visit::{clock_to, count_received, new_visit};
use rules::limits::COUNT_MOST;
use rules::looking::Seen;
use rules::outcomes::{Decision, Refusal};
use rules::tables::{Body, Call, Message, Object, Visit};

// The visit that is there, or one made from the call.
fn called_visit(call: Call, v: Visit) -> Visit
    ensures { result ≡ called_visit call v }
{
    if v.there {
        v
    } else {
        new_visit(call.quiesce, call.release, call.round)
    }
}

// The object that the call is for, among the four of its site.
fn called_object(call: Call, seen: Seen) -> Object
    ensures { result ≡ called_object call seen }
{
    seen.objects[usize::from(call.object % 4)]
}

// The reply, with the value before the operation, from this site to the one that called.
fn reply_to(call: Call, clock: u64, seen: Seen) -> Message
    ensures { result ≡ reply_to call clock seen }
{
    let m = seen.message;
    let value = called_object(call, seen).value;
    plain_message(
        Body::Reply { value },
        m.destination,
        m.source,
        m.handle,
        clock,
    )
}

// What a delivered call leaves at this clock: its reply stands in its slot.
fn called(call: Call, clock: u64, seen: Seen) -> Seen
    requires { Sane seen }
    ensures { result ≡ called call clock seen }
{
    let mut objects = seen.objects;
    let at = usize::from(call.object % 4);
    objects[at] = operated(call, taken(mail_slot(seen), objects[at]));
    Seen {
        site: clock_to(seen.site, clock),
        visit: count_received(called_visit(call, seen.visit)),
        message: reply_to(call, clock, seen),
        objects,
        ..seen
    }
}

// 11. deliver of a call.
pub fn deliver_call(m: u8, call: Call, seen: Seen) -> Decision
    requires { Sane seen }
    ensures { result ≡ deliver_call_of m call seen }
{
    let clock = mail_clock(seen);
    let v = called_visit(call, seen.visit);
    let quiet = (u64::from(v.quiesce) <= clock) | v.dead;
    let held = is_held_by_other(mail_slot(seen), called_object(call, seen));
    let tried = refuse(Refusal::BadField, bad_message(m))
        .or(site_down(seen))
        .or(clock_full(clock))
        .or(refuse(Refusal::Quiesced, quiet))
        .or(refuse(Refusal::Held, held))
        .or(refuse(Refusal::NoCallLeft, COUNT_MOST <= v.received));
    settle(tried, 0, called(call, clock, seen), seen)
}
