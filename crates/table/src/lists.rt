// The two kinds of list in the table, and the ends of the lists of buckets.
ghost use Rattle.table.specs.Fields.{counter_links, bucket_links};
ghost use Rattle.std.proofs.Common.{rules};

use crate::place::Place;
use links::ends::Ends;
use links::kind::Links;
use links::neighbours::Side;

/// The list of the counters of one bucket.
pub struct CounterLinks;

impl<T> Links<Place<T>> for CounterLinks {
    ghost accessors = { counter_links };

    ghost lawful = { Prim.search rules };

    fn link(place: &Place<T>, side: Side) -> Option<u16> {
        place.counter.beside.on(side)
    }

    fn set_link(place: &mut Place<T>, side: Side, link: Option<u16>) {
        place.counter.beside.set(side, link);
    }
}

/// The list of the buckets in use, and that of the free ones.
pub struct BucketLinks;

impl<T> Links<Place<T>> for BucketLinks {
    ghost accessors = { bucket_links };

    ghost lawful = { Prim.search rules };

    fn link(place: &Place<T>, side: Side) -> Option<u16> {
        place.bucket.beside.on(side)
    }

    fn set_link(place: &mut Place<T>, side: Side, link: Option<u16>) {
        place.bucket.beside.set(side, link);
    }
}

/// The ends of the list of the buckets in use, `main`, and of that of the free ones.
#[derive(Clone, Copy, Debug, PartialEq, Eq, Default)]
pub struct Lists {
    pub main: Ends,
    pub free: Ends,
}
