// What is asked of one message, and messages made.
ghost use Rattle.std.specs.Prelude.{◌≡◌};
ghost use Rattle.rules.specs.Tables.{no_message};
ghost use Rattle.rules.specs.Parts.{is_empty, plain_message, answer_message};

use rules::tables::{Body, Message, Visit};

pub fn is_empty(b: Body) -> bool
    ensures { result ≡ is_empty b }
{
    matches!(b, Body::Empty)
}

// An emptied slot.
pub fn no_message() -> Message
    ensures { result ≡ no_message }
{
    plain_message(Body::Empty, 0, 0, 0, 0)
}

// A message that carries no counts.
pub fn plain_message(body: Body, source: u8, destination: u8, handle: u16, stamp: u64) -> Message
    ensures { result ≡ plain_message body source destination handle stamp }
{
    Message {
        body,
        source,
        destination,
        handle,
        stamp,
        sent: [0; 8],
    }
}

// A visit's answer in a round.
pub fn answer_message(v: Visit, source: u8, home: u8, handle: u16, stamp: u64) -> Message
    ensures { result ≡ answer_message v source home handle stamp }
{
    // The borrow checker covers no array field that goes straight into a literal.
    let sent = v.sent;
    Message {
        body: Body::Answer {
            number: v.round,
            received: v.received,
            quiesce: v.quiesce,
        },
        source,
        destination: home,
        handle,
        stamp,
        sent,
    }
}
