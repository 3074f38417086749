// The theorems on rows. Each function names one; its body does nothing.
ghost use Rattle.rows.specs.Examples.{WorkedExamples};
ghost use Rattle.rows.specs.Promises.{RowPromises};

use items::kind::Kind;

/// After any hits, for every kind of item and every number of counters: the row is in order, and
/// every bracket, frequent list, top list, watched hit and share that is read off it is true.
pub fn rows_keep_their_promises<T: Kind>()
    ensures { RowPromises T.Kind.same }
{}

/// What the definitions give for short lists of hits with labels and articles.
pub fn worked_examples_hold()
    ensures { WorkedExamples }
{}
