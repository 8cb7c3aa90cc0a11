// Domain sets outside their limits.
use crate::refusals::{Case, check_refusals};
use std::test::Fail;

const CASES: &[Case] = &[
    ("no part", "010000010000\n05\n", 4, 1),
    ("257 parts", "010101010000\n05\n", 4, 1),
    ("65535 parts", "01ffff010000\n05\n", 4, 1),
    ("no domain", "01000100\n05\n", 4, 1),
    (
        "nine domains",
        "01010009000000010002000300040005000600070008\n05\n",
        4,
        1,
    ),
    (
        "nine domains in nine parts",
        "01000909000000010002000300040005000600070008\n05\n",
        4,
        1,
    ),
    ("the only skew not 0", "010004010001\n05\n", 4, 1),
    ("the first skew not 0", "0100040200010002\n05\n", 4, 1),
    ("the first skew 256", "010100010100\n05\n", 4, 1),
    ("the last skew Q", "0100040200000004\n05\n", 4, 1),
    (
        "the last skew Q, with Q 256",
        "0101000200000100\n05\n",
        4,
        1,
    ),
    ("the last skew above Q", "0100040200000005\n05\n", 4, 1),
    ("the last skew 65535", "010100020000ffff\n05\n", 4, 1),
    ("the first two skews equal", "0100040200000000\n05\n", 4, 1),
    (
        "the last two skews equal",
        "01000403000000020002\n05\n",
        4,
        1,
    ),
    ("falling skews", "01000403000000020001\n05\n", 4, 1),
    (
        "a skew above Q in the middle",
        "01000403000000090003\n05\n",
        4,
        1,
    ),
    (
        "the fourth of five skews falls",
        "0100080500000001000300020004\n05\n",
        4,
        1,
    ),
    ("no end either", "010000010000\n", 4, 1),
];

#[test]
fn domains(rt: HostRuntime) -> Result<(), Fail> {
    check_refusals(&rt, rt.alloc(), CASES)
}
