// What is read off the links without a walk: a counter's entry, the lowest and the highest counter, and the next lower one.
// A function each over the places, which may be shared, and a method that hands on the table's own.
ghost use Rattle.std.specs.Prelude.{◌≡◌};
ghost use Rattle.links.specs.Lists.{prev_in};
ghost use Rattle.table.specs.Fields.{bucket_links, members_in};
ghost use Rattle.table.specs.Moves.{onto, own_entry, lowest, highest, lower};

use crate::Table;
use crate::fields::{members, owner, value};
use crate::lists::{BucketLinks, CounterLinks, Lists};
use crate::place::Place;
use links::lists::neighbour;
use links::neighbours::Side;
use rows::entry::Entry;

/// The counter at `at` as an entry, at the count of the bucket that it names; none past the table's end.
#[tactic(auto, using(links::proofs::Tables::read_found, links::proofs::Tables::read_past))]
pub fn entry<T: Copy>(places: &[Place<T>], at: u16) -> Option<Entry<T>>
    ensures { result ≡ own_entry places.now at }
{
    let counter = places.get(at as usize)?.counter;
    Some(Entry {
        item: counter.item,
        count: value(places, counter.bucket),
        error: counter.error,
    })
}

// The ends have a name each, as a slice's have: with a side for the end, both would be chosen in two more places.

/// The first counter of the first bucket.
pub fn first<T>(places: &[Place<T>], lists: Lists) -> Option<u16>
    ensures { result ≡ lowest places.now lists }
{
    members(places, lists.main.first?).first
}

// The last counter of the bucket that a link leads to.
fn last_of<T>(places: &[Place<T>], bucket: Option<u16>) -> Option<u16>
    ensures { result ≡ onto (λ b. (members_in places.now b).last) bucket }
{
    members(places, bucket?).last
}

/// The last counter of the last bucket.
pub fn last<T>(places: &[Place<T>], lists: Lists) -> Option<u16>
    ensures { result ≡ highest places.now lists }
{
    last_of(places, lists.main.last)
}

// The bucket before another in its list.
fn bucket_before<T>(places: &[Place<T>], bucket: u16) -> Option<u16>
    ensures { result ≡ prev_in bucket_links places.now bucket }
{
    neighbour::<Place<T>, BucketLinks>(places, Side::Prev, bucket)
}

/// The counter before the one at `at`: its neighbour in the bucket, or else the last of the bucket before.
pub fn before<T>(places: &[Place<T>], at: u16) -> Option<u16>
    ensures { result ≡ lower places.now at }
{
    let beside = neighbour::<Place<T>, CounterLinks>(places, Side::Prev, at);
    if beside.is_some() {
        beside
    } else {
        last_of(places, bucket_before(places, owner(places, at)))
    }
}

impl<'a, T> Table<'a, T> {
    pub(crate) fn bucket_before(&self, bucket: u16) -> Option<u16>
        ensures { result ≡ prev_in bucket_links self.now.places.now bucket }
    {
        bucket_before(self.places, bucket)
    }

    /// The first counter of the first bucket.
    pub fn first(&self) -> Option<u16>
        ensures { result ≡ lowest self.now.places.now self.now.lists }
    {
        first(self.places, self.lists)
    }

    /// The last counter of the last bucket.
    pub fn last(&self) -> Option<u16>
        ensures { result ≡ highest self.now.places.now self.now.lists }
    {
        last(self.places, self.lists)
    }

    /// The counter before the one at `at`.
    pub fn before(&self, at: u16) -> Option<u16>
        ensures { result ≡ lower self.now.places.now at }
    {
        before(self.places, at)
    }
}

impl<'a, T: Copy> Table<'a, T> {
    /// The counter at `at` as an entry.
    pub fn entry(&self, at: u16) -> Option<Entry<T>>
        ensures { result ≡ own_entry self.now.places.now at }
    {
        entry(self.places, at)
    }
}
