ghost use Rattle.checks.specs.Laws.{OnePeriodEach, OneSchedule, OneSettlement};

// Each assignment has a period, and one only.
#[tactic(auto, using(crate::proofs::Periods::one_period_each_lem))]
pub fn one_period_each()
    ensures { OnePeriodEach }
{}

// A book and a list have one answer of scheduling.
#[tactic(auto, using(crate::proofs::Once::one_schedule_lem))]
pub fn one_schedule()
    ensures { OneSchedule }
{}

// A book, a named period and a list have one answer of settling.
#[tactic(auto, using(crate::proofs::Once::one_settlement_lem))]
pub fn one_settlement()
    ensures { OneSettlement }
{}
