// The check of a number of positions that is asked for.
ghost use Rattle.std.specs.Prelude.{◌≡◌, None};
ghost use Rattle.calls.specs.Refusals.{unless_refused, rank};

use calls::refusal::Refusal;

// Whether k positions may be asked for, of m counters.
pub fn check_rank(m: usize, k: usize) -> Result<(), Refusal>
    ensures { result ≡ unless_refused (rank m k None) }
{
    if k == 0 || k > m {
        return Err(Refusal::Rank);
    }
    Ok(())
}
