// The lines of a list, and their writing.
ghost use Rattle.std.specs.Prelude.{◌≡◌, ◌≤◌, length, take};
ghost use Rattle.rows.specs.Questions.{by_position};
ghost use Rattle.calls.specs.Refusals.{length_refusal};
ghost use Rattle.calls.specs.Lists.{written};
ghost use Rattle.calls.specs.Calls.{ListEnds};
ghost use Rattle.lists.specs.Row.{row_of};
ghost use Rattle.lists.specs.Marks.{line_of, lines_of};

use crate::figures::lower;
use crate::walk::Walk;
use calls::answers::Line;
use calls::refusal::Refusal;
use counters::counters::Counters;
use rows::entry::Entry;

// The line of an entry. It is sure if its lower figure reaches the threshold; in a list without one, no line is.
fn line_of<T: Copy + Drop>(entry: Entry<T>, threshold: Option<u32>) -> Line<T>
    ensures { result ≡ line_of threshold entry }
{
    Line {
        item: entry.item,
        count: entry.count,
        error: entry.error,
        sure: threshold.is_some_and(|t| lower(entry) >= t),
    }
}

// Writes the first n positions as lines.
fn write_lines<T: Copy + Drop>(
    counters: &Counters<'_, T>,
    n: usize,
    threshold: Option<u32>,
    lines: &mut [Line<T>],
)
    requires { (n ≤ length (row_of counters.now)) × (n ≤ length lines.old) }
    ensures { lines.new ≡ written (lines_of threshold (take n (by_position (row_of counters.now)))) lines.old }
{
    for (i, entry) in Walk::new(counters).take(n).enumerate() {
        lines[i] = line_of(entry, threshold);
    }
}

// Writes the first n positions as lines, if there are lines enough.
pub fn write_list<T: Copy + Drop>(
    counters: &Counters<'_, T>,
    n: usize,
    threshold: Option<u32>,
    lines: &mut [Line<T>],
) -> Result<(), Refusal>
    requires { n ≤ length (row_of counters.now) }
    ensures { ListEnds (length_refusal n (length lines.old)) tt (lines_of threshold (take n (by_position (row_of counters.now)))) lines.old result lines.new }
{
    if n > lines.len() {
        return Err(Refusal::Lines);
    }
    write_lines(counters, n, threshold, lines);
    Ok(())
}
