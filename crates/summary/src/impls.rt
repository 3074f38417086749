// The counters as a summary.
ghost use Rattle.summary.specs.Meaning.{reading, Structured};

use crate::admission::{admit, locate};
use crate::counting::count;
use crate::figures::{entry_at, figures, form_of};
use crate::leaders::Leaders;
use crate::summary::Summary;
use calls::answers::{FrequentList, Line, TopList};
use calls::refusal::Refusal;
use counters::counters::Counters;
use finders::finder::Finder;
use items::kind::Kind;
use lists::checks::check_rank;
use lists::frequent::frequent;
use lists::top::top;

impl<'a, T: Kind + Copy + Drop> Summary<T> for Counters<'a, T> {
    ghost reading = { reading };

    ghost structured = { Structured };

    fn size(&self) -> usize {
        Counters::size(self)
    }

    fn used(&self) -> usize {
        Counters::used(self)
    }

    fn total(&self) -> u32 {
        Counters::total(self)
    }

    fn hit<F: Finder<T>>(&mut self, finder: &mut F, item: T) -> Result<(), Refusal> {
        let place = admit(self, finder, &item)?;
        count(self, finder, item, place);
        Ok(())
    }

    fn watched_hit<F: Finder<T>>(
        &mut self,
        finder: &mut F,
        k: usize,
        item: T,
    ) -> Result<(Option<T>, Option<T>), Refusal> {
        check_rank(self.size(), k)?;
        let place = admit(self, finder, &item)?;
        let form = form_of(entry_at(self, place), item);
        let before = Leaders::new(self, k).survey(&item);
        count(self, finder, item, place);
        Ok(Leaders::new(self, k).changes(&item, form, before))
    }

    fn bracket<F: Finder<T>>(&self, finder: &F, item: &T) -> Result<(u32, u32), Refusal> {
        let place = locate(self, finder, item)?;
        let entry = entry_at(self, place);
        Ok(figures(self, entry))
    }

    fn frequent(&self, p: u32, q: u32, lines: &mut [Line<T>]) -> Result<FrequentList, Refusal> {
        frequent(self, p, q, lines)
    }

    fn top(&self, k: usize, lines: &mut [Line<T>]) -> Result<TopList, Refusal> {
        top(self, k, lines)
    }
}
