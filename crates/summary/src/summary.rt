// What a summary is asked.
ghost use Rattle.std.specs.Prelude.{◌≡◌};
ghost use Rattle.calls.specs.Calls.{HitAnswered, WatchedAnswered, BracketAnswered, FrequentAnswered, TopAnswered};
ghost use Rattle.calls.specs.History.{Keeps, ListKeeps, hit_call, watched_call, bracket_call, frequent_call, top_call, state};
ghost use Rattle.calls.specs.Reading.{Reading};

use calls::answers::{FrequentList, Line, TopList};
use calls::refusal::Refusal;
use finders::finder::Finder;
use items::kind::Kind;

/// Counts the hits of items with a bounded number of counters. It does not own its finder, which is handed to each call
/// that needs one.
pub trait Summary<T: Kind> {
    // How it is read: the row that it holds, with the places of its counters, and its numbers.
    ghost reading: { Reading Self T };

    // What its links keep to.
    ghost structured: { Self → Type 0 };

    /// How many counters there are.
    fn size(&self) -> usize
        ensures { result ≡ reading.size self.now };

    /// How many of the counters are in use.
    fn used(&self) -> usize
        ensures { result ≡ reading.used self.now };

    /// How many hits were accepted.
    fn total(&self) -> u32
        ensures { result ≡ reading.total self.now };

    /// Counts a hit of the item.
    fn hit<F: Finder<T>>(&mut self, finder: &mut F, item: T) -> Result<(), Refusal>
        ensures answered { HitAnswered T.Kind.same F.Finder.bindings F.Finder.room F.Finder.lawful reading self.old finder.old item result self.new finder.new }
        ensures keeps { Keeps T.Kind.same F.Finder.bindings F.Finder.room F.Finder.lawful reading structured (state self.old finder.old) (hit_call item result) (state self.new finder.new) };

    /// Counts a hit of the item, and tells which item entered and which left the first k positions.
    fn watched_hit<F: Finder<T>>(
        &mut self,
        finder: &mut F,
        k: usize,
        item: T,
    ) -> Result<(Option<T>, Option<T>), Refusal>
        ensures answered { WatchedAnswered T.Kind.same F.Finder.bindings F.Finder.room F.Finder.lawful reading self.old finder.old k item result self.new finder.new }
        ensures keeps { Keeps T.Kind.same F.Finder.bindings F.Finder.room F.Finder.lawful reading structured (state self.old finder.old) (watched_call k item result) (state self.new finder.new) };

    /// At least and at most how many hits the item has.
    fn bracket<F: Finder<T>>(&self, finder: &F, item: &T) -> Result<(u32, u32), Refusal>
        ensures answered { BracketAnswered T.Kind.same F.Finder.bindings F.Finder.room F.Finder.lawful reading self.now finder.now item.now result }
        ensures keeps { Keeps T.Kind.same F.Finder.bindings F.Finder.room F.Finder.lawful reading structured (state self.now finder.now) (bracket_call item.now result) (state self.now finder.now) };

    /// Writes the frequent list of the support p/q into the lines, from the front.
    fn frequent(&self, p: u32, q: u32, lines: &mut [Line<T>]) -> Result<FrequentList, Refusal>
        ensures answered { FrequentAnswered reading self.now p q lines.old result lines.new }
        ensures keeps { ListKeeps T.Kind.same reading structured self.now (frequent_call p q lines.old result lines.new) };

    /// Writes the top list of k into the lines, from the front.
    fn top(&self, k: usize, lines: &mut [Line<T>]) -> Result<TopList, Refusal>
        ensures answered { TopAnswered reading self.now k lines.old result lines.new }
        ensures keeps { ListKeeps T.Kind.same reading structured self.now (top_call k lines.old result lines.new) };
}
