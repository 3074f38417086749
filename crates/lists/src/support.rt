// The support of a frequent list, and its threshold.
ghost use Rattle.std.specs.Prelude.{◌≡◌, None, IfOk};
ghost use Rattle.std.specs.Result.{result_err};
ghost use Rattle.rows.specs.Questions.{threshold};
ghost use Rattle.calls.specs.Refusals.{support};
ghost use Rattle.calls.specs.Conditions.{Supported};

use calls::refusal::Refusal;

// The greatest denominator of a support.
const FINEST: u32 = 1_000_000;

/// A support p/q that may be asked for.
#[derive(Clone, Copy)]
pub struct Support {
    p: u32,
    q: u32,
    ghost supported: { Supported p q },
}

impl Support {
    /// The support p/q, if it is one.
    pub fn new(p: u32, q: u32) -> Result<Support, Refusal>
        ensures refused { result_err result ≡ support p q None }
        ensures accepted { IfOk result (λ s. (s.p ≡ p) × (s.q ≡ q)) }
    {
        if p == 0 || p > q || q > FINEST {
            return Err(Refusal::Support);
        }
        Ok(Support { p, q })
    }

    /// The threshold in so many hits: never above them, but at least 1.
    #[tactic(auto, using(crate::proofs::Thresholds::rounded_up))]
    pub fn threshold(self, total: u32) -> u32
        ensures { result ≡ threshold self.p self.q total }
    {
        let hits = u64::from(self.p) * u64::from(total);
        hits.div_ceil(u64::from(self.q)).max(1) as u32
    }
}
