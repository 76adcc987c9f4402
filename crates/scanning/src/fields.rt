// Numbers and words into the bytes of a record.
ghost use Rattle.std.specs.Prelude.{◌≤◌, ◌<◌, ◌≡◌, IfSome};
ghost use Rattle.words.specs.Grammar.{most_in, said, slot_stored};

use words::rows::{Said, Slot};

// The largest number that so many bytes hold.
pub(crate) fn most_in(width: u8) -> u64
    ensures { result ≡ most_in width }
{
    match width {
        1 => u8::MAX as u64,
        2 => u16::MAX as u64,
        _ => u32::MAX as u64,
    }
}

// What a word says of the record.
pub(crate) fn said(says: Option<Said>, bytes: [u8; 16]) -> [u8; 16]
    requires { IfSome says (λ s. s.field < 16) }
    ensures { result ≡ said says bytes }
{
    let mut next = bytes;
    if let Some(Said { field, value }) = says {
        next[field as usize] = value;
    }
    next
}

// A number into its field, lowest byte first.
#[tactic(auto, using(crate::proofs::Stored::four_stored))]
pub(crate) fn slot_stored(slot: Slot, n: u64, bytes: [u8; 16]) -> [u8; 16]
    requires { (slot.field ≤ 12) × (n ≤ most_in slot.width) }
    ensures { result ≡ slot_stored slot n bytes }
{
    let at = slot.field as usize;
    let mut next = bytes;
    match slot.width {
        1 => next[at] = n as u8,
        2 => next[at..at + 2].copy_from_slice(&(n as u16).to_le_bytes()),
        _ => next[at..at + 4].copy_from_slice(&(n as u32).to_le_bytes()),
    }
    next
}
