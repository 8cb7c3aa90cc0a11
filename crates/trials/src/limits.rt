// Blocks at their limits and one past them.
use crate::figures::{WireFigures, flop_figures, gate_figures, wire_figures};
use crate::loads::verdict;
use crate::refusals::check_refused;
use netlist::{Block, ChangeFault, Place};
use std::alloc::Global;
use std::fmt::{Debug, Write};
use std::process::Abort;
use std::test::Fail;

// How many flip-flops, gates and wires a text begins with: a triple, since the tables below write some forty of them.
type Sizes = (u16, u16, u16);

// A name, the sizes, the text that follows, and the number and the line of the refusal.
type Case = (&'static str, Sizes, &'static str, u8, usize);

const FULL: Sizes = (256, 1024, 4096);

// Every gate has a wire in and a wire out, and two wires more would fit.
const ALL_JOINED: Sizes = (256, 1024, 4094);

const MISSING: Result<(), ChangeFault> = Err(ChangeFault::Missing);

const FLIP_FLOPS: &[Case] = &[
    ("one too many", (257, 0, 0), "05\n", 5, 258),
    (
        "one too many by a short frame",
        (256, 0, 0),
        "02\n05\n",
        5,
        258,
    ),
    ("one too many on the last line", (257, 0, 0), "", 5, 258),
    ("5 before 1", (257, 0, 0), "x\n", 5, 258),
    ("1 5: no line feed", (256, 0, 0), "02", 1, 258),
    ("1 5: carriage return", (256, 0, 0), "02\r\n05\n", 1, 258),
    ("2 5", (256, 0, 0), "020000\n05\n", 2, 258),
    ("3 5: after a gate", (256, 1, 0), "02\n05\n", 3, 259),
    ("3 5: after the end", (256, 0, 0), "05\n02\n", 3, 259),
    ("no end", (256, 0, 0), "", 3, 258),
];

const GATES: &[Case] = &[
    ("one too many", (0, 1025, 0), "05\n", 5, 1026),
    (
        "one too many after flip-flops",
        (256, 1025, 0),
        "05\n",
        5,
        1282,
    ),
    ("1 5", (0, 1024, 0), "0300000000", 1, 1026),
    ("2 5", (0, 1024, 0), "030000000000\n05\n", 2, 1026),
    (
        "3 5: after a wire",
        (256, 1024, 1),
        "0300000000\n05\n",
        3,
        1283,
    ),
    (
        "3 5 6: after a wire",
        (256, 1024, 1),
        "0300010000\n05\n",
        3,
        1283,
    ),
    ("5 6", (0, 1024, 0), "0300010000\n05\n", 5, 1026),
    (
        "6 on the last that fits",
        (0, 1023, 0),
        "0300010000\n05\n",
        6,
        1025,
    ),
    (
        "gate 1024 of 1024 is absent",
        (256, 1024, 0),
        "040000000104000000\n05\n",
        7,
        1282,
    ),
    (
        "flip-flop 256 of 256 is absent",
        (256, 1024, 0),
        "040001000000000000\n05\n",
        7,
        1282,
    ),
    (
        "gate 256 to gate 255",
        (256, 1024, 0),
        "040101000100ff0000\n05\n",
        8,
        1282,
    ),
    ("all open", (256, 1024, 0), "05\n", 9, 1282),
    ("the last open", (256, 1024, 4092), "05\n", 9, 5374),
    (
        "no wire out of the last",
        (256, 1024, 4093),
        "05\n",
        9,
        5375,
    ),
];

const WIRES: &[Case] = &[
    ("one too many", FULL, "040000000000000000\n05\n", 5, 5378),
    ("1 5", FULL, "040000000000000000", 1, 5378),
    ("2 5", FULL, "0400000000000000\n05\n", 2, 5378),
    (
        "3 5: after the end",
        FULL,
        "05\n040000000000000000\n",
        3,
        5379,
    ),
    (
        "3 5 7: after the end",
        FULL,
        "05\n040200000000000000\n",
        3,
        5379,
    ),
    (
        "3 5 8: after the end",
        FULL,
        "05\n040100010100000000\n",
        3,
        5379,
    ),
    ("5 7: class 2", FULL, "040200000000000000\n05\n", 5, 5378),
    (
        "5 7: flip-flop 256",
        FULL,
        "040001000000000000\n05\n",
        5,
        5378,
    ),
    ("5 7: gate 1024", FULL, "040000000104000000\n05\n", 5, 5378),
    (
        "5 8: gate 1 to gate 0",
        FULL,
        "040100010100000000\n05\n",
        5,
        5378,
    ),
    (
        "5 7 8: gate 1024 to gate 0",
        FULL,
        "040104000100000000\n05\n",
        5,
        5378,
    ),
    ("the end twice", FULL, "05\n05\n", 3, 5379),
    ("no end", FULL, "", 3, 5378),
    ("no final line feed", FULL, "05", 1, 5378),
];

// What is accepted: a name, the sizes.
const FITTING: &[(&str, Sizes)] = &[
    ("256 flip-flops", (256, 0, 0)),
    ("every gate joined", ALL_JOINED),
    ("256 flip-flops, 1024 gates and 4096 wires", FULL),
    ("no element", (0, 0, 0)),
];

// Four wires for each gate, in and out in turn; the delay of a wire is its number.
fn add_wires(text: &mut String, count: u16) -> Result<(), Fail> {
    for n in 0..count {
        let gate = n / 4;
        let flop = gate % 256;
        if n % 2 == 0 {
            write!(text, "0400{flop:04x}01{gate:04x}{n:04x}\n")?;
        } else {
            write!(text, "0401{gate:04x}00{flop:04x}{n:04x}\n")?;
        }
    }
    Ok(())
}

// A text of these sizes that goes on as is said.
fn grown(heap: Global, sizes: Sizes, tail: &str) -> Result<String, Fail> {
    let (flops, gates, wires) = sizes;
    let mut text = String::from_str(heap, "010001010000\n")?;
    for n in 0..flops {
        write!(text, "02{n:04x}ffff\n")?;
    }
    for n in 0..gates {
        write!(text, "03{n:04x}ffff\n")?;
    }
    add_wires(&mut text, wires)?;
    text.push_str(tail)?;
    Ok(text)
}

fn check_refusals(rt: &impl Abort, heap: Global, cases: &[Case]) -> Result<(), Fail> {
    for (name, sizes, tail, number, line) in cases {
        let text = grown(heap, *sizes, tail)?;
        let mut block = Block::new(heap);
        check_refused(rt, heap, name, &mut block, text.as_str(), (*number, *line))?;
    }
    Ok(())
}

// The wire of this number, as the text has it.
fn wire_in_text(n: u16) -> WireFigures {
    let gate = Place::Gate(n / 4);
    let flop = Place::FlipFlop(n / 4 % 256);
    if n % 2 == 0 {
        (flop, gate, n)
    } else {
        (gate, flop, n)
    }
}

// So many elements, and none past the last.
fn check_count<N: Debug, E>(rt: &impl Abort, name: &N, elements: &[E], count: usize) {
    assert_eq!(rt; elements.len(), count, "{name:?}");
    assert!(rt; elements.get(count).is_none(), "{name:?}");
}

fn check_sizes<N: Debug>(rt: &impl Abort, name: &N, block: &Block, sizes: Sizes) {
    let (flops, gates, wires) = sizes;
    check_count(rt, name, block.flip_flops(), usize::from(flops));
    check_count(rt, name, block.gates(), usize::from(gates));
    check_count(rt, name, block.wires(), usize::from(wires));
}

// The first elements of one kind, this many, are as the text has them.
fn check_first<N: Debug, E, F: PartialEq + Debug + Copy, G: Fn(&E) -> F, T: Fn(u16) -> F>(
    rt: &impl Abort,
    name: &N,
    elements: &[E],
    count: u16,
    figures: G,
    in_text: T,
)
    requires { G.IsAlwaysCallable figures × T.IsAlwaysCallable in_text }
{
    assert!(rt; elements.len() >= usize::from(count), "{name:?}");
    for (n, element) in (0..count).zip(elements) {
        assert_eq!(rt; figures(element), in_text(n), "{name:?}: {n}");
    }
}

// The first elements of each class, this many, are as the text has them.
fn check_elements<N: Debug>(rt: &impl Abort, name: &N, block: &Block, sizes: Sizes) {
    let (flops, gates, wires) = sizes;
    check_first(
        rt,
        name,
        block.flip_flops(),
        flops,
        flop_figures,
        |n| (n, -1),
    );
    check_first(
        rt,
        name,
        block.gates(),
        gates,
        gate_figures,
        |n| (n, u16::MAX),
    );
    check_first(rt, name, block.wires(), wires, wire_figures, wire_in_text);
}

#[test]
fn flip_flops(rt: HostRuntime) -> Result<(), Fail> {
    check_refusals(&rt, rt.alloc(), FLIP_FLOPS)
}

#[test]
fn gates(rt: HostRuntime) -> Result<(), Fail> {
    check_refusals(&rt, rt.alloc(), GATES)
}

#[test]
fn wires(rt: HostRuntime) -> Result<(), Fail> {
    check_refusals(&rt, rt.alloc(), WIRES)
}

#[test]
fn fitting(rt: HostRuntime) -> Result<(), Fail> {
    let mut block = Block::new(rt.alloc());
    for (name, sizes) in FITTING {
        let text = grown(rt.alloc(), *sizes, "05\n")?;
        assert_eq!(rt;
            verdict(text.as_str(), rt.alloc(), &mut block)?,
            None,
            "{}",
            *name
        );
        check_sizes(&rt, name, &block, *sizes);
        check_elements(&rt, name, &block, *sizes);
    }
    Ok(())
}

// The last two wires run from gate 255 to gate 256 and from gate 0 to gate 1023.
#[test]
fn wires_between_gates(rt: HostRuntime) -> Result<(), Fail> {
    let tail = "040100ff0101000001\n040100000103ff0002\n05\n";
    let text = grown(rt.alloc(), ALL_JOINED, tail)?;
    let mut block = Block::new(rt.alloc());
    assert_eq!(rt; verdict(text.as_str(), rt.alloc(), &mut block)?, None);
    check_sizes(&rt, &"joined", &block, FULL);
    check_elements(&rt, &"joined", &block, ALL_JOINED);
    let near = (Place::Gate(255), Place::Gate(256), 1);
    assert_eq!(rt; block.wires().get(4094).map(wire_figures), Some(near));
    let far = (Place::Gate(0), Place::Gate(1023), 2);
    assert_eq!(rt; block.wires().get(4095).map(wire_figures), Some(far));
    Ok(())
}

// The last of each class is changed, and what is past it is missing.
#[test]
fn changes(rt: HostRuntime) -> Result<(), Fail> {
    let text = grown(rt.alloc(), FULL, "05\n")?;
    let mut block = Block::new(rt.alloc());
    assert_eq!(rt; verdict(text.as_str(), rt.alloc(), &mut block)?, None);
    assert_eq!(rt; block.change_flip_flop(256, 0, 0), MISSING);
    assert_eq!(rt; block.change_gate(1024, 0, 0), MISSING);
    assert_eq!(rt; block.change_wire(4096, 0), MISSING);
    check_elements(&rt, &"refused", &block, FULL);
    assert_eq!(rt; block.change_flip_flop(255, 1, 2), Ok(()));
    assert_eq!(rt; block.change_gate(1023, 3, 4), Ok(()));
    assert_eq!(rt; block.change_wire(4095, 5), Ok(()));
    check_sizes(&rt, &"changed", &block, FULL);
    check_elements(&rt, &"changed", &block, (255, 1023, 4095));
    assert_eq!(rt; block.flip_flops().get(255).map(flop_figures), Some((1, 2)));
    assert_eq!(rt; block.gates().get(1023).map(gate_figures), Some((3, 4)));
    let last = (Place::Gate(1023), Place::FlipFlop(255), 5);
    assert_eq!(rt; block.wires().get(4095).map(wire_figures), Some(last));
    Ok(())
}
