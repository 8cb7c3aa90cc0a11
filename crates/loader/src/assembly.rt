// The frames of a dump, put together line by line.
ghost use Rattle.std.specs.Prelude.{◌≡◌};
ghost use Rattle.dumps.specs.Reading.{begin};
ghost use Rattle.netlist.specs.Drafted.{drafted};
ghost use Rattle.loader.specs.Frames.{frame_of};
ghost use Rattle.loader.specs.Assemblies.{state_of, FramePut, LineTaken, Finished};

use crate::faults::LineFault;
use crate::frame::{Frame, read_frame};
use crate::stage::Stage;
use dumps::Ground;
use netlist::{Block, Draft};
use std::alloc::Global;

// Puts one frame into a draft, whatever its order.
fn put(draft: &mut Draft, frame: Frame) -> Result<(), LineFault>
    ensures { FramePut (drafted draft.old) (frame_of frame) result (drafted draft.new) }
{
    match frame {
        Frame::Domains { parts, skews } => draft.set_domains(parts, &skews)?,
        Frame::FlipFlop { setup, hold } => draft.add_flip_flop(setup, hold)?,
        Frame::Gate { smaller, larger } => draft.add_gate(smaller, larger)?,
        Frame::Wire { start, end, delay } => draft.add_wire(start, end, delay)?,
        Frame::End => draft.close()?,
    }
    Ok(())
}

// How far a dump has come: the stage and the block so far.
#[derive(Drop)]
pub struct Assembly {
    stage: Stage,
    draft: Draft,
}

impl Assembly {
    pub fn new(heap: Global) -> Assembly
        ensures { state_of result ≡ begin }
    {
        Assembly {
            stage: Stage::Start,
            draft: Draft::new(heap),
        }
    }

    // Takes the next line.
    pub fn take(&mut self, line: &[u8], heap: Global) -> Result<(), LineFault>
        ensures { LineTaken (state_of self.old) line.now result (state_of self.new) }
    {
        let frame = read_frame(line, heap)?;
        self.stage.advance(frame.kind())?;
        put(&mut self.draft, frame)
    }

    // The block, if the end has come.
    pub fn finish(self) -> Result<Block, LineFault>
        ensures { Finished (state_of self) result }
    {
        let Assembly { stage, draft } = self;
        match stage {
            Stage::End => Ok(Block::of(draft)?),
            _ => Err(LineFault::Refused(Ground::Order)),
        }
    }
}
