// Frames out of their order, and the missing end.
use crate::refusals::{Case, check_refusals};
use std::test::Fail;

const CASES: &[Case] = &[
    ("an empty text", "", 3, 1),
    ("a flip-flop first", "02\n010001010000\n05\n", 3, 1),
    ("a gate first", "0300000000\n010001010000\n05\n", 3, 1),
    ("the end first", "05\n", 3, 1),
    ("the end before the domains", "05\n010001010000\n", 3, 1),
    ("domains twice", "010001010000\n010001010000\n05\n", 3, 2),
    (
        "domains after a flip-flop",
        "010001010000\n02\n010001010000\n05\n",
        3,
        3,
    ),
    (
        "domains after a gate",
        "010001010000\n0300000000\n010001010000\n05\n",
        3,
        3,
    ),
    (
        "domains after a wire",
        "010001010000\n02\n040000000000000000\n010001010000\n05\n",
        3,
        4,
    ),
    (
        "domains after the end",
        "010001010000\n05\n010001010000\n",
        3,
        3,
    ),
    (
        "a flip-flop after a gate",
        "010001010000\n02\n0300000000\n02\n05\n",
        3,
        4,
    ),
    (
        "a flip-flop after a wire",
        "010001010000\n02\n040000000000000000\n02\n05\n",
        3,
        4,
    ),
    ("a flip-flop after the end", "010001010000\n05\n02\n", 3, 3),
    (
        "a gate after a wire",
        "010001010000\n02\n040000000000000000\n0300000000\n05\n",
        3,
        4,
    ),
    (
        "a gate after the end",
        "010001010000\n05\n0300000000\n",
        3,
        3,
    ),
    (
        "a wire after the end",
        "010001010000\n02\n05\n040000000000000000\n",
        3,
        4,
    ),
    ("the end twice", "010001010000\n05\n05\n", 3, 3),
    (
        "an end amid flip-flops",
        "010001010000\n02\n05\n02\n05\n",
        3,
        4,
    ),
    ("no end after the domains", "010001010000\n", 3, 2),
    ("no end after a flip-flop", "010001010000\n02\n", 3, 3),
    (
        "no end after an open gate",
        "010001010000\n0300000000\n",
        3,
        3,
    ),
    (
        "no end after a wire",
        "010001010000\n02\n040000000000000000\n",
        3,
        4,
    ),
];

#[test]
fn order(rt: HostRuntime) -> Result<(), Fail> {
    check_refusals(&rt, rt.alloc(), CASES)
}
