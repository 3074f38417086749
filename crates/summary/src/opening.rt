// Opening a summary.
ghost use Rattle.std.specs.Prelude.{min, length};
ghost use Rattle.calls.specs.Calls.{OpenAnswered, Opened};
ghost use Rattle.summary.specs.Meaning.{reading};

use calls::refusal::Refusal;
use counters::counters::Counters;
use finders::finder::Finder;
use items::kind::Kind;
use table::place::Place;

/// The most places that a summary is opened over.
pub const MOST_PLACES: usize = counters::counters::moves::MOST_PLACES;

/// Whether a summary can be opened over so many places with the finder: asked before it is opened.
pub fn check_open<T: Kind, F: Finder<T>>(places: usize, finder: &F) -> Result<(), Refusal>
    ensures { OpenAnswered F.Finder.bindings F.Finder.room places finder.now result }
{
    if places == 0 || places > MOST_PLACES {
        return Err(Refusal::Size);
    }
    if finder.capacity() < places {
        return Err(Refusal::Capacity);
    }
    if finder.held() > 0 {
        return Err(Refusal::Occupied);
    }
    Ok(())
}

/// Opens a summary over the places, whatever they hold. Of more than 512 places the first 512 are taken.
pub fn open<'a, T: Copy>(places: &'a mut [Place<T>]) -> Counters<'a, T>
    ensures { Opened reading (min (length places.old) 512) result }
{
    Counters::new(places)
}
