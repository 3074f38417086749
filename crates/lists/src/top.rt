// The top list.
ghost use Rattle.std.specs.Prelude.{◌≡◌, ◌&&◌, length, take, nat_le};
ghost use Rattle.std.specs.Option.{unwrap_or};
ghost use Rattle.rows.specs.Questions.{by_position, cut, top, ordered};
ghost use Rattle.counters.specs.Meaning.{size, placed};
ghost use Rattle.calls.specs.Lists.{top_lines, top_answer};
ghost use Rattle.calls.specs.Calls.{TopEnds};
ghost use Rattle.lists.specs.Row.{row_of};

use crate::checks::check_rank;
use crate::figures::{lower, outside};
use crate::lines::write_list;
use crate::walk::Walk;
use calls::answers::{Line, TopList};
use calls::refusal::Refusal;
use counters::counters::Counters;

// The counters and k stay two parameters: each function is called once, so a type for both would add more than it takes away.

// Whether a list of n may end before a figure: k are listed, and no lower figure is below it.
fn may_end(k: usize, n: usize, least: u32, figure: u32) -> bool
    ensures { result ≡ nat_le k n && nat_le figure least }
{
    n >= k && least >= figure
}

// Where the top list of k ends, if it can be guaranteed. It has the lines up to there, or all.
fn cut<T: Copy + Drop>(counters: &Counters<'_, T>, k: usize) -> Option<usize>
    ensures is { result ≡ cut k (size counters.now) (row_of counters.now) }
    ensures lines { unwrap_or result (length (placed counters.now)) ≡ length (top_lines k (size counters.now) (row_of counters.now)) }
{
    // No figure is above the total.
    let mut least = counters.total();
    for (n, entry) in Walk::new(counters).enumerate() {
        if may_end(k, n, least, entry.count) {
            return Some(n);
        }
        least = least.min(lower(entry));
    }
    (least >= outside(counters)).then_some(counters.used())
}

// Whether at each of the first k positions the lower figure is at least the figure after it.
fn falls<T: Copy + Drop>(counters: &Counters<'_, T>, k: usize) -> bool
    ensures { result ≡ ordered k (size counters.now) (row_of counters.now) }
{
    // Before position 1, any figure will do: none is above the total.
    let mut last = counters.total();
    for (n, entry) in Walk::new(counters).enumerate() {
        if last < entry.count {
            return false;
        }
        if n >= k {
            return true;
        }
        last = lower(entry);
    }
    last >= outside(counters)
}

// What the top list of k answers.
fn answer<T: Copy + Drop>(counters: &Counters<'_, T>, k: usize) -> TopList
    ensures is { result ≡ top_answer k (size counters.now) (row_of counters.now) }
    ensures list { top k (size counters.now) (row_of counters.now) ≡ take result.lines (by_position (row_of counters.now)) }
{
    let cut = cut(counters, k);
    TopList {
        lines: cut.unwrap_or(counters.used()),
        guaranteed: cut.is_some(),
        ordered: falls(counters, k),
    }
}

/// Writes the top list of k into the lines, from the front.
pub fn top<T: Copy + Drop>(
    counters: &Counters<'_, T>,
    k: usize,
    lines: &mut [Line<T>],
) -> Result<TopList, Refusal>
    ensures { TopEnds (size counters.now) (row_of counters.now) k lines.old result lines.new }
{
    check_rank(counters.size(), k)?;
    let list = answer(counters, k);
    write_list(counters, list.lines, None, lines)?;
    Ok(list)
}
