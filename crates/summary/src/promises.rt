// The promise over histories. The function names the theorem; its body does nothing.
ghost use Rattle.calls.specs.History.{Promise};
ghost use Rattle.summary.specs.Meaning.{reading, Structured};

use finders::finder::Finder;
use items::kind::Kind;

/// In every history of calls that answer as their contracts say, from an opening on, whatever their order, number and
/// refusals, summary and finder stay sound and every answer is true of the hits accepted before it.
pub fn histories_keep_the_promise<T: Kind + Copy + Drop, F: Finder<T>>()
    ensures { Promise T.Kind.same F.Finder.bindings F.Finder.room F.Finder.lawful reading Structured }
{}
