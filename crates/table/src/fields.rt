// One field of one place, read or written. Past the table's end nothing is written, and nothing or zero is read.
// Each field has a function of its own: one function that took the field as a closure would be called with as much text
// as it has.
ghost use Rattle.std.specs.Prelude.{◌≡◌};
ghost use Rattle.links.specs.Tables.{edit};
ghost use Rattle.table.specs.Fields.{owner_in, members_in, value_in, with_owner, with_members, emptied, labelled};

use crate::Table;
use crate::place::Place;
use links::ends::Ends;
use links::lists::place_mut;

// The bucket that the counter at `at` is in.
#[tactic(auto, using(links::proofs::Tables::read_found, links::proofs::Tables::read_past))]
pub(crate) fn owner<T>(places: &[Place<T>], at: u16) -> u16
    ensures { result ≡ owner_in places.now at }
{
    places
        .get(at as usize)
        .map_or(0, |place| place.counter.bucket)
}

// The ends of the list of the bucket's counters.
#[tactic(auto, using(links::proofs::Tables::read_found, links::proofs::Tables::read_past))]
pub(crate) fn members<T>(places: &[Place<T>], bucket: u16) -> Ends
    ensures { result ≡ members_in places.now bucket }
{
    places
        .get(bucket as usize)
        .map_or(Ends::default(), |place| place.bucket.members)
}

// The count of the bucket's counters.
#[tactic(auto, using(links::proofs::Tables::read_found, links::proofs::Tables::read_past))]
pub(crate) fn value<T>(places: &[Place<T>], bucket: u16) -> u32
    ensures { result ≡ value_in places.now bucket }
{
    places
        .get(bucket as usize)
        .map_or(0, |place| place.bucket.value)
}

// The same as methods: in a method that takes `&mut self`, the lent places are not lent on as shared ones.
impl<'a, T> Table<'a, T> {
    pub(crate) fn owner(&self, at: u16) -> u16
        ensures { result ≡ owner_in self.now.places.now at }
    {
        owner(self.places, at)
    }

    pub(crate) fn members(&self, bucket: u16) -> Ends
        ensures { result ≡ members_in self.now.places.now bucket }
    {
        members(self.places, bucket)
    }

    pub(crate) fn value(&self, bucket: u16) -> u32
        ensures { result ≡ value_in self.now.places.now bucket }
    {
        value(self.places, bucket)
    }
}

#[tactic(auto, using(links::proofs::Tables::put_place, links::proofs::Tables::edit_past))]
pub(crate) fn put_owner<T>(places: &mut [Place<T>], at: u16, bucket: u16)
    ensures { places.new ≡ edit (with_owner bucket) at places.old }
{
    if let Some(place) = place_mut(places, at) {
        place.counter.bucket = bucket;
    }
}

#[tactic(auto, using(links::proofs::Tables::put_place, links::proofs::Tables::edit_past))]
pub(crate) fn put_members<T>(places: &mut [Place<T>], bucket: u16, ends: Ends)
    ensures { places.new ≡ edit (with_members ends) bucket places.old }
{
    if let Some(place) = place_mut(places, bucket) {
        place.bucket.members = ends;
    }
}

// Makes the bucket one for counters of the count `value`, with none in it.
#[tactic(auto, using(links::proofs::Tables::put_place, links::proofs::Tables::edit_past))]
pub(crate) fn empty<T>(places: &mut [Place<T>], bucket: u16, value: u32)
    ensures { places.new ≡ edit (emptied value) bucket places.old }
{
    if let Some(place) = place_mut(places, bucket) {
        place.bucket.value = value;
        place.bucket.members = Ends::default();
    }
}

// Makes the counter at `at` one for `item`, whose count may be too high by `error`.
#[tactic(auto, using(links::proofs::Tables::put_place, links::proofs::Tables::edit_past))]
pub(crate) fn label<T: Copy>(places: &mut [Place<T>], at: u16, item: T, error: u32)
    ensures { places.new ≡ edit (labelled item error) at places.old }
{
    if let Some(place) = place_mut(places, at) {
        place.counter.item = item;
        place.counter.error = error;
    }
}
