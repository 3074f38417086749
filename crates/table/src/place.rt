// A place of the table: room for one counter and, apart from it, for one bucket. Links are numbers of places.
ghost use Rattle.std.specs.Prelude.{◌≡◌};
ghost use Rattle.table.specs.Fields.{vacant_place};

use links::ends::Ends;
use links::neighbours::Neighbours;

// A counter: what it counts, by how much its count may be too high, the bucket that it is in, and its neighbours there.
#[derive(Clone, Copy, Debug, PartialEq, Eq)]
pub struct Counter<T> {
    pub(crate) item: T,
    pub(crate) error: u32,
    pub(crate) bucket: u16,
    pub(crate) beside: Neighbours,
}

// A bucket: the count of its counters, the ends of their list, and its neighbours among the buckets in use or the free ones.
#[derive(Clone, Copy, Debug, PartialEq, Eq, Default)]
pub struct Bucket {
    pub(crate) value: u32,
    pub(crate) members: Ends,
    pub(crate) beside: Neighbours,
}

#[derive(Clone, Copy, Debug, PartialEq, Eq)]
pub struct Place<T> {
    pub(crate) counter: Counter<T>,
    pub(crate) bucket: Bucket,
}

impl<T: Copy> Place<T> {
    /// A place to lend to a table. The item only fills the room; what a place holds at first is never read.
    pub fn vacant(item: T) -> Place<T>
        ensures { result ≡ vacant_place item }
    {
        Place {
            counter: Counter {
                item,
                error: 0,
                bucket: 0,
                beside: Neighbours::default(),
            },
            bucket: Bucket::default(),
        }
    }
}
