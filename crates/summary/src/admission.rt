// What is looked at before anything is written: where an item's counter is, and whether a hit of it can be counted.
// Counters and finder stay two parameters: the finder is lent anew to each call, and a type that held both would be opened again in each clause.
ghost use Rattle.std.specs.Prelude.{◌≡◌};
ghost use Rattle.table.specs.Placed.{at_place, placed_entry};
ghost use Rattle.summary.specs.Meaning.{reading};
ghost use Rattle.summary.specs.Steps.{first_binding, entry_holds, Located, NewcomerChecked, FirstChecked, Admitted};

use calls::refusal::Refusal;
use counters::counters::Counters;
use finders::finder::{Binding, Finder};
use items::kind::Kind;

/// Whether the counter at the place is in use and holds a same item.
pub fn holds<T: Kind + Copy + Drop>(counters: &Counters<'_, T>, place: usize, item: &T) -> bool
    ensures { result ≡ entry_holds T.Kind.same (placed_entry (at_place place (reading.placed counters.now))) item.now }
{
    counters
        .entry(place)
        .is_some_and(|entry| entry.item.is_same(item))
}

/// The item and the place of the lowest counter.
pub fn first<T: Kind + Copy + Drop>(counters: &Counters<'_, T>) -> Option<Binding<T>>
    ensures { result ≡ first_binding (reading.placed counters.now) }
{
    let place = counters.first()?;
    let item = counters.entry(place)?.item;
    Some(Binding { item, place })
}

/// Where the item's counter is, by the finder; none if it has none.
pub fn locate<T: Kind + Copy + Drop, F: Finder<T>>(
    counters: &Counters<'_, T>,
    finder: &F,
    item: &T,
) -> Result<Option<usize>, Refusal>
    ensures { Located T.Kind.same F.Finder.bindings F.Finder.lawful counters.now finder.now item.now result }
{
    let Some(place) = finder.find(item) else {
        return Ok(None);
    };
    if !holds(counters, place, item) {
        return Err(Refusal::Foreign);
    }
    Ok(Some(place))
}

/// Whether the finder can let the lowest counter's item go.
fn check_first<T: Kind + Copy + Drop, F: Finder<T>>(
    counters: &Counters<'_, T>,
    finder: &F,
) -> Result<(), Refusal>
    ensures { FirstChecked T.Kind.same F.Finder.bindings F.Finder.lawful counters.now finder.now result }
{
    let first = first(counters).ok_or(Refusal::Foreign)?;
    if finder.find(&first.item) != Some(first.place) {
        return Err(Refusal::Foreign);
    }
    Ok(())
}

/// Whether the finder can take in an item that has no counter.
fn check_newcomer<T: Kind + Copy + Drop, F: Finder<T>>(
    counters: &Counters<'_, T>,
    finder: &F,
) -> Result<(), Refusal>
    ensures { NewcomerChecked T.Kind.same F.Finder.bindings F.Finder.room F.Finder.lawful counters.now finder.now result }
{
    if counters.used() >= counters.size() {
        return check_first(counters, finder);
    }
    if finder.held() >= finder.capacity() {
        return Err(Refusal::Foreign);
    }
    Ok(())
}

/// Whether a hit of the item can be counted, and where its counter is; none if it has none.
pub fn admit<T: Kind + Copy + Drop, F: Finder<T>>(
    counters: &Counters<'_, T>,
    finder: &F,
    item: &T,
) -> Result<Option<usize>, Refusal>
    ensures { Admitted T.Kind.same F.Finder.bindings F.Finder.room F.Finder.lawful counters.now finder.now item.now result }
{
    if counters.total() == u32::MAX {
        return Err(Refusal::Limit);
    }
    let place = locate(counters, finder, item)?;
    if place.is_none() {
        check_newcomer(counters, finder)?;
    }
    Ok(place)
}
