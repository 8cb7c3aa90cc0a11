// Gates whose delays are crossed, wires that name what is not there or run backward, and open gates.
use crate::refusals::{Case, check_refusals};
use std::test::Fail;

const DELAYS: &[Case] = &[
    ("1 above 0", "010001010000\n0300010000\n05\n", 6, 2),
    ("65535 above 65534", "010001010000\n03fffffffe\n05\n", 6, 2),
    ("256 above 255", "010001010000\n02\n03010000ff\n05\n", 6, 3),
    (
        "the second gate",
        "010001010000\n0300000000\n0300020001\n05\n",
        6,
        3,
    ),
    ("on the last line", "010001010000\n0300010000\n", 6, 2),
];

const ABSENT: &[Case] = &[
    (
        "start of class 2",
        "010001010000\n02\n040200000000000000\n05\n",
        7,
        3,
    ),
    (
        "end of class 2",
        "010001010000\n02\n040000000200000000\n05\n",
        7,
        3,
    ),
    (
        "start of class 255",
        "010001010000\n02\n04ff00000000000000\n05\n",
        7,
        3,
    ),
    (
        "no flip-flop at all",
        "010001010000\n040000000000000000\n05\n",
        7,
        2,
    ),
    (
        "start at flip-flop 1 of one",
        "010001010000\n02\n040000010000000000\n05\n",
        7,
        3,
    ),
    (
        "end at flip-flop 1 of one",
        "010001010000\n02\n040000000000010000\n05\n",
        7,
        3,
    ),
    (
        "start at flip-flop 256 of one",
        "010001010000\n02\n040001000000000000\n05\n",
        7,
        3,
    ),
    (
        "end at flip-flop 65535 of one",
        "010001010000\n02\n0400000000ffff0000\n05\n",
        7,
        3,
    ),
    (
        "start at gate 0 of none",
        "010001010000\n02\n040100000000000000\n05\n",
        7,
        3,
    ),
    (
        "end at gate 0 of none",
        "010001010000\n02\n040000000100000000\n05\n",
        7,
        3,
    ),
    (
        "start at gate 1 of one",
        "010001010000\n02\n0300000000\n040100010000000000\n05\n",
        7,
        4,
    ),
    (
        "end at gate 1 of one",
        "010001010000\n02\n0300000000\n040000000100010000\n05\n",
        7,
        4,
    ),
    (
        "gate 0 to gate 1 of one",
        "010001010000\n02\n0300000000\n040100000100010000\n05\n",
        7,
        4,
    ),
    (
        "gate 1 of one, flip-flops are two",
        "010001010000\n02\n02\n0300000000\n040100010000000000\n05\n",
        7,
        5,
    ),
    (
        "flip-flop 1 of one, gates are two",
        "010001010000\n02\n0300000000\n0300000000\n040000010100000000\n05\n",
        7,
        5,
    ),
    (
        "the second wire",
        "010001010000\n02\n040000000000000000\n040000000000010000\n05\n",
        7,
        4,
    ),
    (
        "on the last line",
        "010001010000\n040000000000000000\n",
        7,
        2,
    ),
];

const BACKWARD: &[Case] = &[
    (
        "a gate to itself",
        "010001010000\n02\n0300000000\n040100000100000000\n05\n",
        8,
        4,
    ),
    (
        "gate 1 to gate 0",
        "010001010000\n02\n0300000000\n0300000000\n040100010100000000\n05\n",
        8,
        5,
    ),
    (
        "gate 1 to itself",
        "010001010000\n02\n0300000000\n0300000000\n040100010100010000\n05\n",
        8,
        5,
    ),
    (
        "back after forth",
        "010001010000\n02\n0300000000\n0300000000\n040100000100010000\n040100010100000000\n05\n",
        8,
        6,
    ),
    (
        "no flip-flop at all",
        "010001010000\n0300000000\n040100000100000000\n05\n",
        8,
        3,
    ),
    (
        "on the last line",
        "010001010000\n0300000000\n040100000100000000\n",
        8,
        3,
    ),
];

const OPEN: &[Case] = &[
    ("no wire", "010001010000\n02\n0300000000\n05\n", 9, 4),
    (
        "no flip-flop at all",
        "010001010000\n0300000000\n05\n",
        9,
        3,
    ),
    (
        "a wire in alone",
        "010001010000\n02\n0300000000\n040000000100000000\n05\n",
        9,
        5,
    ),
    (
        "a wire out alone",
        "010001010000\n02\n0300000000\n040100000000000000\n05\n",
        9,
        5,
    ),
    (
        "a wire past the gate",
        "010001010000\n02\n0300000000\n040000000000000000\n05\n",
        9,
        5,
    ),
    (
        "gate 1 of two",
        "010001010000\n02\n0300000000\n0300000000\n040000000100000000\n040100000000000000\n05\n",
        9,
        7,
    ),
    (
        "gate 0 of two",
        "010001010000\n02\n0300000000\n0300000000\n040000000100010000\n040100010000000000\n05\n",
        9,
        7,
    ),
    (
        "no wire out of the last of a chain",
        "010001010000\n02\n0300000000\n0300000000\n040000000100000000\n040100000100010000\n05\n",
        9,
        7,
    ),
    (
        "no wire into the first of a chain",
        "010001010000\n02\n0300000000\n0300000000\n040100000100010000\n040100010000000000\n05\n",
        9,
        7,
    ),
];

#[test]
fn delays(rt: HostRuntime) -> Result<(), Fail> {
    check_refusals(&rt, rt.alloc(), DELAYS)
}

#[test]
fn absent(rt: HostRuntime) -> Result<(), Fail> {
    check_refusals(&rt, rt.alloc(), ABSENT)
}

#[test]
fn backward(rt: HostRuntime) -> Result<(), Fail> {
    check_refusals(&rt, rt.alloc(), BACKWARD)
}

#[test]
fn open_gates(rt: HostRuntime) -> Result<(), Fail> {
    check_refusals(&rt, rt.alloc(), OPEN)
}
