ghost use Rattle.dumps.specs.Verdict.{OneAnswer, EverySoundCircuitHasADump};

// Each text has exactly one answer.
#[tactic(auto, using(crate::proofs::Answer::one_answer))]
pub fn one_answer()
    ensures { OneAnswer }
{}

// Every sound circuit has a dump.
#[tactic(auto, using(crate::proofs::Dump::every_sound_circuit_has_a_dump_lem))]
pub fn every_sound_circuit_has_a_dump()
    ensures { EverySoundCircuitHasADump }
{}
