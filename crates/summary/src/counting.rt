// The writes of a hit that was admitted. The finder's calls are not refused then, and neither are the moves.
ghost use Rattle.std.specs.Prelude.{◌<◌, ◌≤◌, None};
ghost use Rattle.summary.specs.Meaning.{reading};
ghost use Rattle.summary.specs.Steps.{Bound, Rebound, Counted};

use crate::admission::first;
use counters::counters::Counters;
use finders::finder::{Binding, Finder};
use items::kind::Kind;

/// Binds an item that is not found, while there is room.
fn bind<T: Kind, F: Finder<T>>(finder: &mut F, item: T, place: usize)
    ensures { Bound T.Kind.same F.Finder.bindings F.Finder.room F.Finder.lawful finder.old item place finder.new }
{
    let _ = finder.enter(item, place);
}

/// Binds an item that is not found in place of the one that is bound by `old`.
fn rebind<T: Kind + Drop, F: Finder<T>>(finder: &mut F, old: &Binding<T>, item: T)
    ensures { Rebound T.Kind.same F.Finder.bindings F.Finder.room F.Finder.lawful finder.old old.now item finder.new }
{
    let _ = finder.leave(&old.item);
    bind(finder, item, old.place);
}

/// A newcomer gets an unused counter.
fn join<T: Kind + Copy + Drop, F: Finder<T>>(
    counters: &mut Counters<'_, T>,
    finder: &mut F,
    item: T,
)
    ensures { reading.used counters.old < reading.size counters.old → Counted T.Kind.same F.Finder.bindings F.Finder.room F.Finder.lawful counters.old finder.old item None counters.new finder.new }
{
    let place = counters.used();
    bind(finder, item, place);
    let _ = counters.enter(item);
}

/// A newcomer takes over the lowest counter.
fn take_over<T: Kind + Copy + Drop, F: Finder<T>>(
    counters: &mut Counters<'_, T>,
    finder: &mut F,
    item: T,
)
    ensures { reading.size counters.old ≤ reading.used counters.old → Counted T.Kind.same F.Finder.bindings F.Finder.room F.Finder.lawful counters.old finder.old item None counters.new finder.new }
{
    if let Some(first) = first(counters) {
        rebind(finder, &first, item);
        let _ = counters.replace(item);
    }
}

/// Counts a hit of the item, whose counter is at the place; it has none if there is no place.
pub fn count<T: Kind + Copy + Drop, F: Finder<T>>(
    counters: &mut Counters<'_, T>,
    finder: &mut F,
    item: T,
    place: Option<usize>,
)
    ensures { Counted T.Kind.same F.Finder.bindings F.Finder.room F.Finder.lawful counters.old finder.old item place counters.new finder.new }
{
    if let Some(place) = place {
        let _ = counters.raise(place);
    } else if counters.used() < counters.size() {
        join(counters, finder, item);
    } else {
        take_over(counters, finder, item);
    }
}
