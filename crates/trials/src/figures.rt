// All that the reading calls tell of a block, and the check that they tell it.
use netlist::limits::{MOST_DOMAINS, MOST_FLIP_FLOPS, MOST_GATES, MOST_WIRES};
use netlist::{Block, FlipFlop, Gate, Place, Wire};
use std::fmt::Debug;
use std::process::Abort;

// The start, the end and the delay of a wire.
pub type WireFigures = (Place, Place, u16);

#[derive(Clone, Copy)]
pub struct Figures {
    pub parts: u16,
    pub skews: &'static [u16],
    // setup and hold
    pub flops: &'static [(u16, i16)],
    // smaller and larger delay
    pub gates: &'static [(u16, u16)],
    pub wires: &'static [WireFigures],
}

pub const EMPTY: Figures = Figures {
    parts: 1,
    skews: &[0],
    flops: &[],
    gates: &[],
    wires: &[],
};

// The setup and hold of a flip-flop.
pub fn flop_figures(flop: &FlipFlop) -> (u16, i16) {
    (flop.setup(), flop.hold())
}

// The smaller and the larger delay of a gate.
pub fn gate_figures(gate: &Gate) -> (u16, u16) {
    (gate.smaller(), gate.larger())
}

pub fn wire_figures(wire: &Wire) -> WireFigures {
    (wire.start(), wire.end(), wire.delay())
}

// What is told of one kind of element or of the domains: so many, each with its figures, and none beyond them.
fn check_each<N: Debug, E, F: PartialEq + Debug + Copy, G: Fn(&E) -> F>(
    rt: &impl Abort,
    name: &N,
    elements: &[E],
    figures: G,
    expected: &[F],
    most: usize,
)
    requires { G.IsAlwaysCallable figures }
{
    assert_eq!(rt; elements.len(), expected.len(), "{name:?}");
    for (n, (element, expected)) in elements.iter().zip(expected).enumerate() {
        assert_eq!(rt; figures(element), *expected, "{name:?}: {n}");
    }
    for n in [expected.len(), most, usize::MAX] {
        assert!(rt; elements.get(n).is_none(), "{name:?}: {n}");
    }
}

// What is told of one kind of element by number: each with its figures, and none beyond them.
fn check_numbers<N: Debug, F: PartialEq + Debug + Copy, R: Fn(usize) -> Option<F>>(
    rt: &impl Abort,
    name: &N,
    read: R,
    expected: &[F],
    most: usize,
)
    requires { R.IsAlwaysCallable read }
{
    for (n, figures) in expected.iter().enumerate() {
        assert_eq!(rt; read(n), Some(*figures), "{name:?}: {n}");
    }
    for n in [expected.len(), most, usize::MAX] {
        assert!(rt; read(n).is_none(), "{name:?}: {n}");
    }
}

// The block of a case of this name holds these figures.
pub fn check_block<N: Debug>(rt: &impl Abort, name: &N, block: &Block, figures: Figures) {
    assert_eq!(rt; block.parts(), figures.parts, "{name:?}: parts");
    check_each(
        rt,
        &(name, "domains"),
        block.skews(),
        |skew| *skew,
        figures.skews,
        MOST_DOMAINS,
    );
    check_each(
        rt,
        &(name, "flip-flops"),
        block.flip_flops(),
        flop_figures,
        figures.flops,
        MOST_FLIP_FLOPS,
    );
    check_each(
        rt,
        &(name, "gates"),
        block.gates(),
        gate_figures,
        figures.gates,
        MOST_GATES,
    );
    check_each(
        rt,
        &(name, "wires"),
        block.wires(),
        wire_figures,
        figures.wires,
        MOST_WIRES,
    );
    check_numbers(
        rt,
        &(name, "flip-flop"),
        |n| Some(flop_figures(&block.flip_flop(n)?)),
        figures.flops,
        MOST_FLIP_FLOPS,
    );
    check_numbers(
        rt,
        &(name, "gate"),
        |n| Some(gate_figures(&block.gate(n)?)),
        figures.gates,
        MOST_GATES,
    );
    check_numbers(
        rt,
        &(name, "wire"),
        |n| Some(wire_figures(&block.wire(n)?)),
        figures.wires,
        MOST_WIRES,
    );
}
