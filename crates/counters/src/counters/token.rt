// A counter out of its bucket: detached, made one for another item, and attached again; and the three moves made of this.
ghost use Rattle.std.specs.Prelude.{◌≡◌, ◌<◌, None};
ghost use Rattle.counters.specs.Meaning.{limit};
ghost use Rattle.counters.specs.Steps.{count_at, Lifted, Seated, Overtaken};
ghost use Rattle.links.specs.Tables.{edit};
ghost use Rattle.table.specs.Fields.{labelled};
ghost use Rattle.table.specs.Moves.{TakenOut, Attached};

use table::Table;

// A counter that is in no bucket: its place, the bucket that it stands behind, and the count that it had. It is not Drop,
// so it has to be attached again, once.
struct Detached {
    place: u16,
    after: Option<u16>,
    count: u32,
}

impl Detached {
    // Takes the counter at `place` out of its bucket, and gives the bucket back if it is then empty.
    fn detach<T>(table: &mut Table<'_, T>, place: u16) -> Detached
        ensures place { result.place ≡ place }
        ensures count { result.count ≡ count_at table.old.places.now place }
        ensures out { TakenOut table.old.places.now table.new.places.now table.old.lists table.new.lists place result.after }
    {
        let taken = table.take(place);
        Detached {
            place,
            after: taken.after,
            count: taken.count,
        }
    }

    // The counter at a place that is not in use: it is in no bucket, and stands before all of them.
    fn unused(place: u16) -> Detached
        ensures place { result.place ≡ place }
        ensures after { result.after ≡ None }
        ensures count { result.count ≡ 0 }
    {
        Detached {
            place,
            after: None,
            count: 0,
        }
    }

    // Makes the counter one for `item`, whose count may be too high by `error`.
    fn label<T: Copy>(&self, table: &mut Table<'_, T>, item: T, error: u32)
        ensures places { table.new.places.now ≡ edit (labelled item error) self.now.place table.old.places.now }
        ensures lists { table.new.lists ≡ table.old.lists }
    {
        table.relabel(self.place, item, error);
    }

    // Attaches the counter at the count `count`: behind all of that count, in the bucket after the one that it stands
    // behind, or in a free one that is put there.
    fn attach<T>(self, table: &mut Table<'_, T>, count: u32)
        ensures { Attached table.old.places.now table.new.places.now table.old.lists table.new.lists self.after count self.place }
    {
        let Detached {
            place,
            after,
            count: _,
        } = self;
        table.attach(after, count, place);
    }
}

/// Moves the counter at `place` to one more than it had.
pub(super) fn lift<T>(table: &mut Table<'_, T>, place: u16)
    requires { count_at table.old.places.now place < limit }
    ensures { Lifted table.old.places.now table.new.places.now table.old.lists table.new.lists place }
{
    let detached = Detached::detach(table, place);
    let count = detached.count + 1;
    detached.attach(table, count);
}

/// Makes the counter at a place that is not in use one for `item`, with a count of 1.
pub(super) fn seat<T: Copy>(table: &mut Table<'_, T>, place: u16, item: T)
    ensures { Seated table.old.places.now table.new.places.now table.old.lists table.new.lists place item }
{
    let detached = Detached::unused(place);
    detached.label(table, item, 0);
    detached.attach(table, 1);
}

/// Makes the counter at `place` one for `item`, with one more than it had, all of which but 1 may be too high.
pub(super) fn overtake<T: Copy>(table: &mut Table<'_, T>, place: u16, item: T)
    requires { count_at table.old.places.now place < limit }
    ensures { Overtaken table.old.places.now table.new.places.now table.old.lists table.new.lists place item }
{
    let detached = Detached::detach(table, place);
    let error = detached.count;
    detached.label(table, item, error);
    detached.attach(table, error + 1);
}
