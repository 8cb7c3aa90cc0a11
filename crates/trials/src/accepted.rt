// Texts that are accepted, and all that can be read of their blocks.
use crate::figures::{EMPTY, Figures, check_block};
use crate::loads::verdict;
use netlist::{Block, Place};
use std::alloc::Global;
use std::process::Abort;
use std::test::Fail;

// A name, a text and what its block holds.
type Case = (&'static str, &'static str, Figures);

const WHOLE: &str = "\
0100ab02000000aa\n\
02cdeffedc\n\
02\n\
0300000000\n\
0300ff0100\n\
030000ffff\n\
03ffffffff\n\
040000000100000007\n\
040100000100010000\n\
040100010100030001\n\
040100030000010002\n\
040000010100020003\n\
040100020100030004\n\
040100000100030005\n\
040100000100030005\n\
040100020000000006\n\
05\n";

const WHOLE_FIGURES: Figures = Figures {
    parts: 171,
    skews: &[0, 170],
    flops: &[(52719, -292), (0, 0)],
    gates: &[(0, 0), (255, 256), (0, 65535), (65535, 65535)],
    wires: &[
        (Place::FlipFlop(0), Place::Gate(0), 7),
        (Place::Gate(0), Place::Gate(1), 0),
        (Place::Gate(1), Place::Gate(3), 1),
        (Place::Gate(3), Place::FlipFlop(1), 2),
        (Place::FlipFlop(1), Place::Gate(2), 3),
        (Place::Gate(2), Place::Gate(3), 4),
        (Place::Gate(0), Place::Gate(3), 5),
        (Place::Gate(0), Place::Gate(3), 5),
        (Place::Gate(2), Place::FlipFlop(0), 6),
    ],
};

const DOMAINS: &[Case] = &[
    ("one part", "010001010000\n05\n", EMPTY),
    (
        "two parts",
        "010002010000\n05\n",
        Figures { parts: 2, ..EMPTY },
    ),
    (
        "256 parts",
        "010100010000\n05\n",
        Figures {
            parts: 256,
            ..EMPTY
        },
    ),
    (
        "the last skew below Q by one",
        "0100040200000003\n05\n",
        Figures {
            parts: 4,
            skews: &[0, 3],
            ..EMPTY
        },
    ),
    (
        "eight domains in eight parts",
        "0100080800000001000200030004000500060007\n05\n",
        Figures {
            parts: 8,
            skews: &[0, 1, 2, 3, 4, 5, 6, 7],
            ..EMPTY
        },
    ),
    (
        "eight domains in 256 parts",
        "01010008000000010002000400080010008000ff\n05\n",
        Figures {
            parts: 256,
            skews: &[0, 1, 2, 4, 8, 16, 128, 255],
            ..EMPTY
        },
    ),
];

const ELEMENTS: &[Case] = &[
    ("a whole block", WHOLE, WHOLE_FIGURES),
    (
        "flip-flops alone",
        "010001010000\n02\n0200000000\n02ffff8000\n0200007fff\n020001ffff\n02010000ff\n0212348001\n05\n",
        Figures {
            flops: &[
                (0, 0),
                (0, 0),
                (65535, -32768),
                (0, 32767),
                (1, -1),
                (256, 255),
                (4660, -32767),
            ],
            ..EMPTY
        },
    ),
    (
        "a flip-flop wired to itself",
        "010001010000\n02\n040000000000000000\n05\n",
        Figures {
            flops: &[(0, 0)],
            wires: &[(Place::FlipFlop(0), Place::FlipFlop(0), 0)],
            ..EMPTY
        },
    ),
    (
        "wires between flip-flops, two of them equal",
        "010001010000\n02\n02\n040000000000010001\n040000000000010001\n04000001000000ffff\n040000010000010100\n05\n",
        Figures {
            flops: &[(0, 0), (0, 0)],
            wires: &[
                (Place::FlipFlop(0), Place::FlipFlop(1), 1),
                (Place::FlipFlop(0), Place::FlipFlop(1), 1),
                (Place::FlipFlop(1), Place::FlipFlop(0), 65535),
                (Place::FlipFlop(1), Place::FlipFlop(1), 256),
            ],
            ..EMPTY
        },
    ),
    (
        "a gate between a flip-flop and itself",
        "010001010000\n02\n0300050005\n040100000000000001\n040000000100000002\n05\n",
        Figures {
            flops: &[(0, 0)],
            gates: &[(5, 5)],
            wires: &[
                (Place::Gate(0), Place::FlipFlop(0), 1),
                (Place::FlipFlop(0), Place::Gate(0), 2),
            ],
            ..EMPTY
        },
    ),
];

// Loads into a block that holds another text, and then into one that holds the same.
fn check_accepted(rt: &impl Abort, heap: Global, cases: &[Case]) -> Result<(), Fail> {
    for (name, text, figures) in cases {
        let mut block = Block::new(heap);
        assert_eq!(rt; verdict(WHOLE, heap, &mut block)?, None, "{}", *name);
        for _ in 0..2 {
            assert_eq!(rt; verdict(text, heap, &mut block)?, None, "{}", *name);
            check_block(rt, name, &block, *figures);
        }
    }
    Ok(())
}

#[test]
fn domains(rt: HostRuntime) -> Result<(), Fail> {
    check_accepted(&rt, rt.alloc(), DOMAINS)
}

#[test]
fn elements(rt: HostRuntime) -> Result<(), Fail> {
    check_accepted(&rt, rt.alloc(), ELEMENTS)
}

// The empty block before any load, a load into it, a refusal and a load after it.
#[test]
fn turns(rt: HostRuntime) -> Result<(), Fail> {
    let heap = rt.alloc();
    let mut block = Block::new(heap);
    check_block(&rt, &"new", &block, EMPTY);
    assert_eq!(rt; verdict(WHOLE, heap, &mut block)?, None);
    check_block(&rt, &"loaded", &block, WHOLE_FIGURES);
    assert_eq!(rt; verdict("", heap, &mut block)?, Some((3, 1)));
    check_block(&rt, &"refused", &block, EMPTY);
    assert_eq!(rt; verdict("05\n", heap, &mut block)?, Some((3, 1)));
    check_block(&rt, &"refused again", &block, EMPTY);
    assert_eq!(rt; verdict(WHOLE, heap, &mut block)?, None);
    check_block(&rt, &"loaded again", &block, WHOLE_FIGURES);
    Ok(())
}
