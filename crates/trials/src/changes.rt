// Changes of one element: what is answered, and what the block holds after it.
use crate::figures::{EMPTY, Figures, check_block};
use crate::loads::verdict;
use netlist::{Block, ChangeFault, Place};
use std::process::Abort;
use std::test::Fail;

// Data and no closures: the cases stand in constant tables, and a failed check prints the change.
#[derive(Clone, Copy, Debug)]
enum Change {
    // number, smaller and larger delay
    Gate(usize, u16, u16),
    // number and delay
    Wire(usize, u16),
    // number, setup and hold
    FlipFlop(usize, u16, i16),
}

type Answer = Result<(), ChangeFault>;

const MADE: Answer = Ok(());

const MISSING: Answer = Err(ChangeFault::Missing);

const CROSSED: Answer = Err(ChangeFault::Delays);

// A change, its answer and what the block holds after it.
type Case = (Change, Answer, Figures);

const TEXT: &str = "\
0100040200000002\n\
0200010002\n\
020003fffc\n\
0300050006\n\
0300070008\n\
040000000100000009\n\
04010000010001000a\n\
04010001000001000b\n\
04010001000001000b\n\
05\n";

const BEFORE: Figures = Figures {
    parts: 4,
    skews: &[0, 2],
    flops: &[(1, 2), (3, -4)],
    gates: &[(5, 6), (7, 8)],
    wires: &[
        (Place::FlipFlop(0), Place::Gate(0), 9),
        (Place::Gate(0), Place::Gate(1), 10),
        (Place::Gate(1), Place::FlipFlop(1), 11),
        (Place::Gate(1), Place::FlipFlop(1), 11),
    ],
};

const FLIP_FLOPS: &[Case] = &[
    (
        Change::FlipFlop(0, 65535, -32768),
        MADE,
        Figures {
            flops: &[(65535, -32768), (3, -4)],
            ..BEFORE
        },
    ),
    (
        Change::FlipFlop(1, 0, 32767),
        MADE,
        Figures {
            flops: &[(1, 2), (0, 32767)],
            ..BEFORE
        },
    ),
    (Change::FlipFlop(1, 3, -4), MADE, BEFORE),
    (Change::FlipFlop(2, 0, 0), MISSING, BEFORE),
    (Change::FlipFlop(256, 0, 0), MISSING, BEFORE),
    (Change::FlipFlop(65536, 0, 0), MISSING, BEFORE),
    (Change::FlipFlop(usize::MAX, 0, 0), MISSING, BEFORE),
];

const GATES: &[Case] = &[
    (
        Change::Gate(0, 20, 30),
        MADE,
        Figures {
            gates: &[(20, 30), (7, 8)],
            ..BEFORE
        },
    ),
    (
        Change::Gate(1, 9, 9),
        MADE,
        Figures {
            gates: &[(5, 6), (9, 9)],
            ..BEFORE
        },
    ),
    (
        Change::Gate(1, 0, 65535),
        MADE,
        Figures {
            gates: &[(5, 6), (0, 65535)],
            ..BEFORE
        },
    ),
    (
        Change::Gate(0, 65535, 65535),
        MADE,
        Figures {
            gates: &[(65535, 65535), (7, 8)],
            ..BEFORE
        },
    ),
    (Change::Gate(0, 1, 0), CROSSED, BEFORE),
    (Change::Gate(1, 9, 8), CROSSED, BEFORE),
    (Change::Gate(1, 65535, 65534), CROSSED, BEFORE),
    (Change::Gate(2, 0, 0), MISSING, BEFORE),
    (Change::Gate(1024, 0, 0), MISSING, BEFORE),
    // both faults: the missing number is told
    (Change::Gate(2, 1, 0), MISSING, BEFORE),
    (Change::Gate(usize::MAX, 65535, 0), MISSING, BEFORE),
];

const WIRES: &[Case] = &[
    (
        Change::Wire(0, 65535),
        MADE,
        Figures {
            wires: &[
                (Place::FlipFlop(0), Place::Gate(0), 65535),
                (Place::Gate(0), Place::Gate(1), 10),
                (Place::Gate(1), Place::FlipFlop(1), 11),
                (Place::Gate(1), Place::FlipFlop(1), 11),
            ],
            ..BEFORE
        },
    ),
    // of two equal wires one
    (
        Change::Wire(3, 0),
        MADE,
        Figures {
            wires: &[
                (Place::FlipFlop(0), Place::Gate(0), 9),
                (Place::Gate(0), Place::Gate(1), 10),
                (Place::Gate(1), Place::FlipFlop(1), 11),
                (Place::Gate(1), Place::FlipFlop(1), 0),
            ],
            ..BEFORE
        },
    ),
    (Change::Wire(1, 10), MADE, BEFORE),
    (Change::Wire(4, 0), MISSING, BEFORE),
    (Change::Wire(4096, 0), MISSING, BEFORE),
    (Change::Wire(usize::MAX, 0), MISSING, BEFORE),
];

// Made one after the other in one block.
const IN_TURN: &[Case] = &[
    (
        Change::FlipFlop(0, 4, -1),
        MADE,
        Figures {
            flops: &[(4, -1), (3, -4)],
            ..BEFORE
        },
    ),
    (
        Change::Gate(1, 2, 3),
        MADE,
        Figures {
            flops: &[(4, -1), (3, -4)],
            gates: &[(5, 6), (2, 3)],
            ..BEFORE
        },
    ),
    (
        Change::Gate(1, 3, 2),
        CROSSED,
        Figures {
            flops: &[(4, -1), (3, -4)],
            gates: &[(5, 6), (2, 3)],
            ..BEFORE
        },
    ),
    (
        Change::Wire(4, 2),
        MISSING,
        Figures {
            flops: &[(4, -1), (3, -4)],
            gates: &[(5, 6), (2, 3)],
            ..BEFORE
        },
    ),
    (
        Change::FlipFlop(0, 1, 2),
        MADE,
        Figures {
            gates: &[(5, 6), (2, 3)],
            ..BEFORE
        },
    ),
    (Change::Gate(1, 7, 8), MADE, BEFORE),
];

// In the empty block no number exists.
const IN_EMPTY: &[Case] = &[
    (Change::FlipFlop(0, 1, 1), MISSING, EMPTY),
    (Change::Gate(0, 1, 1), MISSING, EMPTY),
    (Change::Gate(0, 1, 0), MISSING, EMPTY),
    (Change::Wire(0, 1), MISSING, EMPTY),
];

fn apply(block: &mut Block, change: Change) -> Answer {
    match change {
        Change::Gate(number, smaller, larger) => block.change_gate(number, smaller, larger),
        Change::Wire(number, delay) => block.change_wire(number, delay),
        Change::FlipFlop(number, setup, hold) => block.change_flip_flop(number, setup, hold),
    }
}

fn check_change(rt: &impl Abort, block: &mut Block, case: &Case) {
    let (change, answer, after) = case;
    assert_eq!(rt; apply(block, *change), *answer, "{change:?}");
    check_block(rt, change, block, *after);
}

// Makes each change in a block of its own.
#[test]
fn apart(rt: HostRuntime) -> Result<(), Fail> {
    for table in [FLIP_FLOPS, GATES, WIRES] {
        for case in table {
            let mut block = Block::new(rt.alloc());
            assert_eq!(rt; verdict(TEXT, rt.alloc(), &mut block)?, None);
            check_change(&rt, &mut block, case);
        }
    }
    Ok(())
}

// Makes changes one after the other, in the empty block and then in a loaded one.
#[test]
fn in_turn(rt: HostRuntime) -> Result<(), Fail> {
    let mut block = Block::new(rt.alloc());
    for case in IN_EMPTY {
        check_change(&rt, &mut block, case);
    }
    assert_eq!(rt; verdict(TEXT, rt.alloc(), &mut block)?, None);
    check_block(&rt, &"loaded", &block, BEFORE);
    for case in IN_TURN {
        check_change(&rt, &mut block, case);
    }
    assert_eq!(rt; verdict(TEXT, rt.alloc(), &mut block)?, None);
    check_block(&rt, &"loaded again", &block, BEFORE);
    Ok(())
}
