// What holds of every period.
ghost use Rattle.std.specs.Prelude.{Some};
ghost use Rattle.period.specs.declared.period.Period.{Period};
ghost use Rattle.period.specs.Periods.{fraction, Compared, OnePeriodPerLength};

use crate::period::Period;

// Two periods of one length are one period.
#[tactic(auto, using(crate::proofs::Lengths::one_per_length))]
pub fn one_period_per_length()
    ensures { OnePeriodPerLength }
{}

// Two periods compare as their lengths do: less is exactly shorter, equal exactly as long.
#[tactic(auto, using(crate::specs::Ordered::by_length))]
pub fn periods_compare_by_length()
    ensures cmp { (p q : Period) → Compared (fraction p) (fraction q) (Some (⟦<Period as Ord>⟧.cmp p q)) }
    ensures partial_cmp { (p q : Period) → Compared (fraction p) (fraction q) (⟦<Period as PartialOrd>⟧.partial_cmp p q) }
{}
