// The frame layer: the frame that a line says.
ghost use Rattle.std.specs.Prelude.{◌≡◌, Some, IfOk, MatchResult};
ghost use Rattle.dumps.specs.Frame.{kind};
ghost use Rattle.dumps.specs.Reading.{numbers, parsed};
ghost use Rattle.loader.specs.Frames.{frame_of, kind_number, SaysFrame, Unframed, Unparsed};

use crate::digits::decode;
use crate::faults::LineFault;
use dumps::Ground;
use netlist::Terminal;
use std::alloc::{AllocError, Global};

// The byte of its kind, with which a frame begins. Constants, and no discriminants of `Kind`: a rule of the project has a frame taken apart
// by one slice pattern, kind byte first, and a pattern names constants.
const DOMAINS: u8 = 0x01;

const FLIP_FLOP: u8 = 0x02;

const GATE: u8 = 0x03;

const WIRE: u8 = 0x04;

const END: u8 = 0x05;

// The bytes of a field.
const FIELD: usize = 2;

// A frame with its fields as they were written.
#[derive(Drop)]
pub enum Frame {
    Domains {
        parts: u16,
        skews: Vec<u16>,
    },
    FlipFlop {
        setup: u16,
        hold: i16,
    },
    Gate {
        smaller: u16,
        larger: u16,
    },
    Wire {
        start: Terminal,
        end: Terminal,
        delay: u16,
    },
    End,
}

// The kind of a frame.
#[derive(Clone, Copy)]
pub enum Kind {
    Domains,
    FlipFlop,
    Gate,
    Wire,
    End,
}

impl Frame {
    pub fn kind(&self) -> Kind
        ensures { kind_number result ≡ kind (frame_of self.now) }
    {
        match self {
            Frame::Domains { .. } => Kind::Domains,
            Frame::FlipFlop { .. } => Kind::FlipFlop,
            Frame::Gate { .. } => Kind::Gate,
            Frame::Wire { .. } => Kind::Wire,
            Frame::End => Kind::End,
        }
    }
}

// The numbers that fields of two bytes hold, the high byte first.
fn fields(bytes: &[u8], heap: Global) -> Result<Vec<u16>, AllocError>
    ensures { IfOk result (λ v. v.items ≡ numbers bytes.now) }
{
    let (fields, _) = bytes.as_chunks::<FIELD>();
    fields
        .iter()
        .map(|field| u16::from_be_bytes(*field))
        .collect(heap)
}

// The frame that bytes write: the kind first, and fixed fields after it.
fn parse(bytes: &[u8], heap: Global) -> Result<Frame, LineFault>
    ensures { MatchResult result (λ f. parsed bytes.now ≡ Some (frame_of f)) (λ e. Unparsed e (parsed bytes.now)) }
{
    match bytes {
        [DOMAINS, q1, q0, count, skews @ ..] => {
            if skews.len() != FIELD * usize::from(*count) {
                return Err(LineFault::Refused(Ground::Shape));
            }
            Ok(Frame::Domains {
                parts: u16::from_be_bytes([*q1, *q0]),
                skews: fields(skews, heap)?,
            })
        }
        [FLIP_FLOP] => Ok(Frame::FlipFlop { setup: 0, hold: 0 }),
        [FLIP_FLOP, x1, x0, h1, h0] => Ok(Frame::FlipFlop {
            setup: u16::from_be_bytes([*x1, *x0]),
            hold: i16::from_be_bytes([*h1, *h0]),
        }),
        [GATE, s1, s0, l1, l0] => Ok(Frame::Gate {
            smaller: u16::from_be_bytes([*s1, *s0]),
            larger: u16::from_be_bytes([*l1, *l0]),
        }),
        [WIRE, sc, s1, s0, ec, e1, e0, w1, w0] => Ok(Frame::Wire {
            start: Terminal {
                class: *sc,
                number: u16::from_be_bytes([*s1, *s0]),
            },
            end: Terminal {
                class: *ec,
                number: u16::from_be_bytes([*e1, *e0]),
            },
            delay: u16::from_be_bytes([*w1, *w0]),
        }),
        [END] => Ok(Frame::End),
        _ => Err(LineFault::Refused(Ground::Shape)),
    }
}

// The frame that a line says.
pub fn read_frame(line: &[u8], heap: Global) -> Result<Frame, LineFault>
    ensures { MatchResult result (λ f. SaysFrame line.now (frame_of f)) (λ e. Unframed e line.now) }
{
    let bytes = decode(line, heap)?;
    parse(&bytes, heap)
}
