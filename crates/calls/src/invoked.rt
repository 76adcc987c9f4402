// A call goes out.
ghost use Rattle.std.specs.Prelude.{◌<◌, ◌≡◌};
ghost use Rattle.rules.specs.Sane.{Sane};
ghost use Rattle.rules.specs.Calls.{call_site, bad_call, is_sent_out, call_of, invoked, invoke_of};

use checks::{
    bad_handle, bad_site, clock_full, is_full, no_passage, refuse, settle, site_down, visit_missing,
};
use parts::message::plain_message;
use parts::visit::{clock_to, count_sent};
use rules::limits::{COUNT_MOST, OBJECT_MOST, WIDTH_MOST};
use rules::looking::Seen;
use rules::outcomes::{Decision, Refusal};
use rules::tables::{Body, Call, Visit};

// The site of the object that is called.
fn call_site(object: u8) -> u8
    ensures { (result ≡ call_site object) × (result < 8) }
{
    object / 4 % 8
}

// A field out of range, or a read with a value.
fn bad_call(h: u16, site: u8, write: u8, object: u8, value: u32) -> bool
    ensures { result ≡ bad_call h site write object value }
{
    bad_handle(h)
        | bad_site(site)
        | (1 < write)
        | (OBJECT_MOST < object)
        | (WIDTH_MOST < value)
        | ((write == 0) & (value != 0))
}

// A call with the visit's times and round.
fn call_of(write: u8, object: u8, value: u32, v: Visit) -> Call
    ensures { result ≡ call_of write object value v }
{
    Call {
        quiesce: v.quiesce,
        release: v.release,
        round: v.round,
        object,
        write: write == 1,
        value,
    }
}

// What an invoke leaves at this clock, for this call.
fn invoked(h: u16, site: u8, call: Call, clock: u64, seen: Seen) -> Seen
    requires { Sane seen }
    ensures { result ≡ invoked h site call clock seen }
{
    let to = call_site(call.object);
    Seen {
        site: clock_to(seen.site, clock),
        visit: count_sent(seen.visit, usize::from(to)),
        message: plain_message(Body::Call(call), site, to, h, clock),
        ..seen
    }
}

// Whether the visit has sent all the calls that it may to the object's site.
fn is_sent_out(object: u8, v: Visit) -> bool
    ensures { result ≡ is_sent_out object v }
{
    COUNT_MOST <= v.sent[usize::from(call_site(object))]
}

// 3. invoke, where place is the lowest empty message slot.
pub fn invoke(
    h: u16,
    site: u8,
    write: u8,
    object: u8,
    value: u32,
    place: usize,
    seen: Seen,
) -> Decision
    requires { Sane seen }
    ensures { result ≡ invoke_of h site write object value place seen }
{
    let v = seen.visit;
    let clock = seen.site.clock + 1;
    let quiet = (u64::from(v.quiesce) <= clock) | v.dead;
    let tried = refuse(Refusal::BadField, bad_call(h, site, write, object, value))
        .or(no_passage(h, seen))
        .or(site_down(seen))
        .or(visit_missing(seen))
        .or(clock_full(clock))
        .or(refuse(Refusal::Quiesced, quiet))
        .or(refuse(Refusal::Full, is_full(seen)))
        .or(refuse(Refusal::NoCallLeft, is_sent_out(object, v)));
    let left = invoked(h, site, call_of(write, object, value, v), clock, seen);
    settle(tried, place as u64, left, seen)
}
