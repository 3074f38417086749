// The frequent list.
ghost use Rattle.std.specs.Prelude.{◌≡◌, length, take};
ghost use Rattle.rows.specs.Questions.{by_position, frequent, complete};
ghost use Rattle.counters.specs.Meaning.{size};
ghost use Rattle.calls.specs.Lists.{frequent_lines, frequent_answer};
ghost use Rattle.calls.specs.Calls.{FrequentEnds};
ghost use Rattle.lists.specs.Row.{row_of};

use crate::figures::{outside, reaches};
use crate::lines::write_list;
use crate::support::Support;
use crate::walk::Walk;
use calls::answers::{FrequentList, Line};
use calls::refusal::Refusal;
use counters::counters::Counters;

// The counters and the threshold stay two parameters: each function is called once, so a type for both would add more than
// it takes away. p and q come apart, as they are asked for, and are one from the check on.

// How many entries are listed at a threshold. They are the first ones by position, since counts do not rise along it.
fn reaching<T: Copy + Drop>(counters: &Counters<'_, T>, threshold: u32) -> usize
    ensures list { frequent threshold (row_of counters.now) ≡ take result (by_position (row_of counters.now)) }
    ensures number { result ≡ length (frequent_lines threshold (row_of counters.now)) }
{
    Walk::new(counters)
        .take_while(|entry| reaches(*entry, threshold))
        .count()
}

// Whether no item with as many hits as the threshold is missing in the list.
fn is_complete<T: Copy + Drop>(counters: &Counters<'_, T>, threshold: u32) -> bool
    ensures { result ≡ complete threshold (size counters.now) (row_of counters.now) }
{
    outside(counters) < threshold
}

// What the frequent list of a threshold answers.
fn answer<T: Copy + Drop>(counters: &Counters<'_, T>, threshold: u32) -> FrequentList
    ensures is { result ≡ frequent_answer threshold (size counters.now) (row_of counters.now) }
    ensures list { frequent threshold (row_of counters.now) ≡ take result.lines (by_position (row_of counters.now)) }
{
    FrequentList {
        lines: reaching(counters, threshold),
        threshold,
        complete: is_complete(counters, threshold),
    }
}

/// Writes the frequent list of the support p/q into the lines, from the front.
pub fn frequent<T: Copy + Drop>(
    counters: &Counters<'_, T>,
    p: u32,
    q: u32,
    lines: &mut [Line<T>],
) -> Result<FrequentList, Refusal>
    ensures { FrequentEnds (size counters.now) counters.now.total (row_of counters.now) p q lines.old result lines.new }
{
    let support = Support::new(p, q)?;
    let list = answer(counters, support.threshold(counters.total()));
    write_list(counters, list.lines, Some(list.threshold), lines)?;
    Ok(list)
}
