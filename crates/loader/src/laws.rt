// What holds of every load.
ghost use Rattle.loader.specs.Laws.{OneLoadAnswer, EverySoundCircuitLoads};

// Whenever a text is loaded, the answer and the circuit are the same, but where memory fails.
#[tactic(auto, using(crate::proofs::Lawful::loads_alike))]
pub fn one_load_answer()
    ensures { OneLoadAnswer }
{}

// Every sound circuit has a dump that loads to it.
#[tactic(auto, using(crate::proofs::Lawful::dump_loads))]
pub fn every_sound_circuit_loads()
    ensures { EverySoundCircuitLoads }
{}
