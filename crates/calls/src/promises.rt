// The theorem on foreign finders. The function names it; its body does nothing.
ghost use Rattle.calls.specs.ForeignWords.{ForeignExactly};

use items::kind::Kind;

// When a finder is foreign, and when it is not.
pub fn foreign_finders_are_told<T: Kind>()
    ensures { ForeignExactly T.Kind.same }
{}
