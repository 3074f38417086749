// The moves: a counter out of its bucket, a counter into the bucket of its new count, and the start with all buckets free.
// Between the first two the table is one counter short of what it stands for.
ghost use Rattle.std.specs.Prelude.{◌≡◌, ℕ, min, length};
ghost use Rattle.links.specs.Tables.{edit};
ghost use Rattle.links.specs.Lists.{Listed};
ghost use Rattle.table.specs.Fields.{no_ends, owner_in, value_in, bucket_links, labelled};
ghost use Rattle.table.specs.Groups.{below};
ghost use Rattle.table.specs.Moves.{pulled_from, attached_in, bucket_after_lem, has_count_lem, retired_in, retired_lists, Tidied, TakenOut, Freshened, Targeted, Attached};

use crate::Table;
use crate::fields::{empty, label, put_members, put_owner};
use crate::lists::{BucketLinks, CounterLinks, Lists};
use crate::place::Place;
use links::lists::neighbour;
use links::neighbours::{Neighbours, Side};

/// What is left of a counter's old place once it is detached: the bucket before it, and the count that it had.
#[derive(Clone, Copy, Debug, PartialEq, Eq)]
pub struct Taken {
    pub count: u32,
    pub after: Option<u16>,
}

impl<'a, T> Table<'a, T> {
    /// Makes every bucket that links can name a free one, whatever the places held.
    pub fn new(places: &'a mut [Place<T>]) -> Table<'a, T>
        ensures size { length result.places.now ≡ length places.old }
        ensures main { result.lists.main ≡ no_ends }
        ensures free { Listed bucket_links result.places.now (below (min (length places.old) 65536)) result.lists.free }
    {
        let mut lists = Lists::default();
        for i in 0..places.len().min(65_536) {
            lists.free.append::<Place<T>, BucketLinks>(places, i as u16);
        }
        Table { places, lists }
    }

    // Takes the counter at `at` out of its bucket's list, and answers the bucket.
    fn pull(&mut self, at: u16) -> u16
        ensures bucket { result ≡ owner_in self.old.places.now at }
        ensures table { self.new.places.now ≡ pulled_from result at self.old.places.now }
        ensures lists { self.new.lists ≡ self.old.lists }
    {
        let bucket = self.owner(at);
        let mut ends = self.members(bucket);
        ends.unlink::<Place<T>, CounterLinks>(self.places, at);
        put_members(self.places, bucket, ends);
        bucket
    }

    // Gives the bucket, which has no counter, back to the free ones.
    fn retire(&mut self, bucket: u16)
        ensures table { self.new.places.now ≡ retired_in self.old.lists bucket self.old.places.now }
        ensures lists { self.new.lists ≡ retired_lists self.old.places.now bucket self.old.lists }
    {
        let Lists { main, free } = &mut self.lists;
        main.unlink::<Place<T>, BucketLinks>(self.places, bucket);
        free.append::<Place<T>, BucketLinks>(self.places, bucket);
    }

    // Gives the bucket back if it has no counter. The link answered leads to the bucket that then comes before its place.
    fn tidy(&mut self, bucket: u16) -> Option<u16>
        ensures { Tidied self.old.places.now self.new.places.now self.old.lists self.new.lists bucket result }
    {
        if self.members(bucket).first.is_some() {
            return Some(bucket);
        }
        let before = self.bucket_before(bucket);
        self.retire(bucket);
        before
    }

    /// Takes the counter at `at` out of its bucket, and gives the bucket back if it is then empty.
    pub fn take(&mut self, at: u16) -> Taken
        ensures count { result.count ≡ value_in self.old.places.now (owner_in self.old.places.now at) }
        ensures out { TakenOut self.old.places.now self.new.places.now self.old.lists self.new.lists at result.after }
    {
        let bucket = self.pull(at);
        let count = self.value(bucket);
        let after = self.tidy(bucket);
        Taken { count, after }
    }

    // Takes a free bucket into use, for the count `count`, in between two neighbours.
    fn freshen(&mut self, beside: Neighbours, count: u32) -> Option<u16>
        ensures { Freshened self.old.places.now self.new.places.now self.old.lists self.new.lists beside.prev beside.next count result }
    {
        let bucket = self.lists.free.first?;
        let Lists { main, free } = &mut self.lists;
        free.unlink::<Place<T>, BucketLinks>(self.places, bucket);
        main.link::<Place<T>, BucketLinks>(self.places, beside, bucket);
        empty(self.places, bucket, count);
        Some(bucket)
    }

    // The bucket after the one that `before` leads to, or the first of all.
    fn bucket_after(&self, before: Option<u16>) -> Option<u16>
        ensures { result ≡ bucket_after_lem self.now.places.now self.now.lists.main.first before }
    {
        before.map_or(self.lists.main.first, |bucket| {
            neighbour::<Place<T>, BucketLinks>(self.places, Side::Next, bucket)
        })
    }

    // Whether a link leads to a bucket for the count `count`.
    fn has_count(&self, bucket: Option<u16>, count: u32) -> bool
        ensures { result ≡ has_count_lem self.now.places.now count bucket }
    {
        matches!(bucket, Some(bucket) if self.value(bucket) == count)
    }

    // The bucket for the count `count` behind the one that `before` leads to: the next one if it has that count, else a
    // free one that is put in between.
    fn target(&mut self, before: Option<u16>, count: u32) -> Option<u16>
        ensures { Targeted self.old.places.now self.new.places.now self.old.lists self.new.lists before count result }
    {
        let after = self.bucket_after(before);
        if self.has_count(after, count) {
            after
        } else {
            let beside = Neighbours {
                prev: before,
                next: after,
            };
            self.freshen(beside, count)
        }
    }

    // Puts the counter at `at`, which is in no bucket, at the end of the bucket's list.
    fn attach_to(&mut self, bucket: u16, at: u16)
        ensures table { self.new.places.now ≡ attached_in bucket at self.old.places.now }
        ensures lists { self.new.lists ≡ self.old.lists }
    {
        let mut ends = self.members(bucket);
        ends.append::<Place<T>, CounterLinks>(self.places, at);
        put_owner(self.places, at, bucket);
        put_members(self.places, bucket, ends);
    }

    /// Attaches the counter at `at`, which is in no bucket, behind all of the count `count`: in the bucket after the one
    /// that `before` leads to if that has this count, else in a free one that is put in between.
    pub fn attach(&mut self, before: Option<u16>, count: u32, at: u16)
        ensures { Attached self.old.places.now self.new.places.now self.old.lists self.new.lists before count at }
    {
        if let Some(bucket) = self.target(before, count) {
            self.attach_to(bucket, at);
        }
    }
}

impl<'a, T: Copy> Table<'a, T> {
    /// Makes the counter at `at` one for `item`, whose count may be too high by `error`.
    pub fn relabel(&mut self, at: u16, item: T, error: u32)
        ensures places { self.new.places.now ≡ edit (labelled item error) at self.old.places.now }
        ensures lists { self.new.lists ≡ self.old.lists }
    {
        label(self.places, at, item, error);
    }
}
