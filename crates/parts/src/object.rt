// Objects: who holds one, taking, freeing, restoring.
ghost use Rattle.std.specs.Prelude.{◌≡◌};
ghost use Rattle.rules.specs.Parts.{is_held_by_other, unheld, taken, operated, freed, restored, each_of, told_objects};

use rules::tables::{Call, Object, Told};

pub fn is_held_by_other(slot: u8, o: Object) -> bool
    ensures { result ≡ is_held_by_other slot o }
{
    o.holder.is_some_and(|k| k != slot)
}

// An unheld object is taken; a held one keeps the value before its first taking.
pub fn taken(slot: u8, o: Object) -> Object
    ensures { result ≡ taken slot o }
{
    if o.holder.is_some() {
        return o;
    }
    Object {
        value: o.value,
        holder: Some(slot),
        before: o.value,
    }
}

// Read or written.
pub fn operated(call: Call, o: Object) -> Object
    ensures { result ≡ operated call o }
{
    if call.write {
        Object {
            value: call.value,
            ..o
        }
    } else {
        o
    }
}

pub fn unheld(value: u32) -> Object
    ensures { result ≡ unheld value }
{
    Object {
        value,
        holder: None,
        before: 0,
    }
}

// Freed, and keeps its value, if this slot holds it.
fn freed(slot: u8, o: Object) -> Object
    ensures { result ≡ freed slot o }
{
    if o.holder == Some(slot) {
        unheld(o.value)
    } else {
        o
    }
}

// Restored and freed, if this slot holds it.
fn restored(slot: u8, o: Object) -> Object
    ensures { result ≡ restored slot o }
{
    if o.holder == Some(slot) {
        unheld(o.before)
    } else {
        o
    }
}

fn freed_all(slot: u8, os: [Object; 4]) -> [Object; 4]
    ensures { result ≡ each_of (freed slot) os }
{
    os.map(|o| freed(slot, o))
}

pub fn restored_all(slot: u8, os: [Object; 4]) -> [Object; 4]
    ensures { result ≡ each_of (restored slot) os }
{
    os.map(|o| restored(slot, o))
}

// A phase 2 prepare frees what the visit held.
pub fn told_objects(told: Told, slot: u8, os: [Object; 4]) -> [Object; 4]
    ensures { result ≡ told_objects told slot os }
{
    match told {
        Told::Refresh(_) | Told::Terminate(_) => os,
        Told::Prepare => freed_all(slot, os),
    }
}
