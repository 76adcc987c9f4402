// What a check is asked, and what it refuses by itself.
ghost use Rattle.std.specs.Prelude.{◌<◌, ◌≡◌, length};
ghost use Rattle.clearing.specs.Question.{bad_beam, bad_margin, bad_list, bad_object, is_named_before, names_twice, has_object_at, own_refusal_of};

use crate::OwnRefusal;
use rules::limits::OBJECT_MOST;
use rules::steps::Step;

// Whether a ship of this beam clears every width of the list by this margin.
// The widths are read from home, by a passage in this slot and with these times.
#[derive(Clone, Copy)]
pub struct Inquiry<'a> {
    pub beam: u32,
    pub margin: u32,
    pub objects: &'a [u8],
    pub home: u8,
    pub slot: u8,
    pub quiesce: u32,
    pub release: u32,
}

fn is_bad_beam(beam: u32) -> bool
    ensures { result ≡ bad_beam beam }
{
    beam == 0 || 1000000 < beam
}

fn is_bad_margin(margin: u32) -> bool
    ensures { result ≡ bad_margin margin }
{
    5000 < margin
}

fn is_bad_list(objects: &[u8]) -> bool
    ensures { result ≡ bad_list objects.now }
{
    objects.is_empty() || 8 < objects.len()
}

fn has_bad_object(objects: &[u8]) -> bool
    ensures { result ≡ bad_object objects.now }
{
    objects.iter().any(|object| OBJECT_MOST < *object)
}

// Whether the object at place i stands at an earlier place too.
#[tactic(auto, using(crate::proofs::ListedLaws::named_before_any))]
fn is_named_before(objects: &[u8], i: usize) -> bool
    requires { i < length objects.now }
    ensures { result ≡ is_named_before objects.now i }
{
    objects[..i].contains(&objects[i])
}

fn names_twice(objects: &[u8]) -> bool
    ensures { result ≡ names_twice objects.now }
{
    (0..objects.len()).any(|i| is_named_before(objects, i))
}

// Whether an object of the list stands at this station.
pub(crate) fn has_object_at(objects: &[u8], site: u8) -> bool
    ensures { result ≡ has_object_at objects.now site }
{
    objects.iter().any(|object| *object / 4 == site)
}

impl Inquiry<'_> {
    // What the check refuses by itself, in the order in which it is tried.
    pub(crate) fn own_refusal(&self) -> Result<(), OwnRefusal>
        ensures { result ≡ own_refusal_of self.now.beam self.now.margin self.now.objects.now }
    {
        if is_bad_beam(self.beam) {
            return Err(OwnRefusal::Beam);
        }
        if is_bad_margin(self.margin) {
            return Err(OwnRefusal::Margin);
        }
        if is_bad_list(self.objects) {
            return Err(OwnRefusal::List);
        }
        if has_bad_object(self.objects) {
            return Err(OwnRefusal::Object);
        }
        if names_twice(self.objects) {
            return Err(OwnRefusal::Twice);
        }
        Ok(())
    }

    pub(crate) fn begin(&self) -> Step
        ensures { result ≡ Step.Begin self.now.home self.now.slot self.now.quiesce self.now.release }
    {
        Step::Begin {
            home: self.home,
            slot: self.slot,
            quiesce: self.quiesce,
            release: self.release,
        }
    }
}
