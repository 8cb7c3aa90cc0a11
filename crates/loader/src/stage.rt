// The order of frames: the stage that a dump has reached decides with the kind of the next frame whether it may stand.
ghost use Rattle.loader.specs.Frames.{kind_number};
ghost use Rattle.loader.specs.Stages.{stage_number, Advanced};

use crate::faults::LineFault;
use crate::frame::Kind;
use dumps::Ground;

// The kind of the last frame. No Option<Kind>: a rule of the project has the loader match its own stage and the frame kind together and move
// the stage in place.
#[derive(Clone, Copy)]
pub enum Stage {
    Start,
    Domains,
    FlipFlops,
    Gates,
    Wires,
    End,
}

impl Stage {
    // Moves on over a frame of this kind.
    pub fn advance(&mut self, kind: Kind) -> Result<(), LineFault>
        ensures { Advanced (stage_number self.old) (kind_number kind) result (stage_number self.new) }
    {
        *self = match (*self, kind) {
            (Stage::Start, Kind::Domains) => Stage::Domains,
            (Stage::Domains | Stage::FlipFlops, Kind::FlipFlop) => Stage::FlipFlops,
            (Stage::Domains | Stage::FlipFlops | Stage::Gates, Kind::Gate) => Stage::Gates,
            (Stage::Domains | Stage::FlipFlops | Stage::Gates | Stage::Wires, Kind::Wire) =>
                Stage::Wires,
            (Stage::Domains | Stage::FlipFlops | Stage::Gates | Stage::Wires, Kind::End) =>
                Stage::End,
            _ => return Err(LineFault::Refused(Ground::Order)),
        };
        Ok(())
    }
}
