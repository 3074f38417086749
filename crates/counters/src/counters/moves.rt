// The moves: opening, and one hit for a counter in use, for a newcomer with an unused counter, and for a newcomer that
// takes the lowest counter over. One that is not made changes nothing.
ghost use Rattle.std.specs.Prelude.{◌≡◌, ℕ, ◌+◌, ◌<◌, ◌≤◌, min, [], length, nat_lt, Some, None, MatchResult, OnOk, OnErr};
ghost use Rattle.counters.specs.declared.counters.unmoved.Unmoved.TheVariants.{NoCounter, AtLimit};
ghost use Rattle.table.specs.Moves.{lowest};
ghost use Rattle.table.specs.Placed.{raised, entered, overtaken, at_place, off_place};
ghost use Rattle.counters.specs.Meaning.{size, placed, limit, moved_if, Moved};

use crate::counters::Counters;
use crate::counters::token::{lift, overtake, seat};
use crate::counters::unmoved::Unmoved;
use table::Table;
use table::place::Place;

/// The most places that counters are made over.
pub const MOST_PLACES: usize = 512;

impl<'a, T: Copy> Counters<'a, T> {
    /// No counter in use, whatever the memory held. Of more than 512 places the first 512 are taken.
    pub fn new(places: &'a mut [Place<T>]) -> Counters<'a, T>
        ensures row { placed result ≡ [] }
        ensures total { result.total ≡ 0 }
        ensures size { size result ≡ min (length places.old) 512 }
    {
        // As in the finders: two lines of the library's, which a function of its own would not make shorter.
        let room = places.len().min(MOST_PLACES);
        let (places, _) = places.split_at_mut(room);
        Counters {
            table: Table::new(places),
            used: 0,
            total: 0,
        }
    }

    // The total with one more hit.
    fn next_total(&self) -> Result<u32, Unmoved>
        ensures { MatchResult result (λ n. (self.now.total < limit) × (n ≡ self.now.total + 1)) (λ why. (limit ≤ self.now.total) × (why ≡ AtLimit)) }
    {
        self.total.checked_add(1).ok_or(Unmoved::AtLimit)
    }

    // The place of the lowest counter.
    fn lowest(&self) -> Result<u16, Unmoved>
        ensures { MatchResult result (λ p. lowest self.now.table.places.now self.now.table.lists ≡ Some p) (λ why. (lowest self.now.table.places.now self.now.table.lists ≡ None) × (why ≡ NoCounter)) }
    {
        self.table.first().ok_or(Unmoved::NoCounter)
    }

    /// One more hit for the counter at `place`. Not made if that is not in use, or if the total is at its limit.
    pub fn raise(&mut self, place: usize) -> Result<(), Unmoved>
        ensures answer { result ≡ moved_if (nat_lt place (length (placed self.old))) self.old.total }
        ensures moved { OnOk result (Moved self.old self.new (raised (at_place place (placed self.old)) (off_place place (placed self.old)))) }
        ensures refused { OnErr result (self.new ≡ self.old) }
    {
        if place >= self.used {
            return Err(Unmoved::NoCounter);
        }
        let total = self.next_total()?;
        lift(&mut self.table, place as u16);
        self.total = total;
        Ok(())
    }

    /// The first hit of an item that has no counter, while one is unused. Not made if none is, or if the total is at its limit.
    pub fn enter(&mut self, item: T) -> Result<(), Unmoved>
        ensures answer { result ≡ moved_if (nat_lt (length (placed self.old)) (size self.old)) self.old.total }
        ensures moved { OnOk result (Moved self.old self.new (entered (length (placed self.old)) item (placed self.old))) }
        ensures refused { OnErr result (self.new ≡ self.old) }
    {
        let place = self.used;
        if place >= self.table.places.len() {
            return Err(Unmoved::NoCounter);
        }
        let total = self.next_total()?;
        seat(&mut self.table, place as u16, item);
        self.used = place + 1;
        self.total = total;
        Ok(())
    }

    /// A hit of an item that has no counter and takes over the lowest one. Not made if none is in use, or if the total is
    /// at its limit.
    pub fn replace(&mut self, item: T) -> Result<(), Unmoved>
        ensures answer { result ≡ moved_if (nat_lt 0 (length (placed self.old))) self.old.total }
        ensures moved { OnOk result (Moved self.old self.new (overtaken item (placed self.old))) }
        ensures refused { OnErr result (self.new ≡ self.old) }
    {
        let place = self.lowest()?;
        let total = self.next_total()?;
        overtake(&mut self.table, place, item);
        self.total = total;
        Ok(())
    }
}
