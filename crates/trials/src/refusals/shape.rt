// Unknown kinds and wrong lengths.
use crate::refusals::{Case, check_refusals};
use std::test::Fail;

const KINDS: &[Case] = &[
    ("kind 0", "00\n", 2, 1),
    ("kind 6", "010001010000\n06\n05\n", 2, 2),
    ("kind 16", "10\n05\n", 2, 1),
    ("kind 255", "010001010000\nff\n", 2, 2),
    (
        "an unknown kind after the end",
        "010001010000\n05\n07\n",
        2,
        3,
    ),
];

const LENGTHS: &[Case] = &[
    ("domains: no field", "01\n05\n", 2, 1),
    ("domains: half of Q", "0100\n05\n", 2, 1),
    ("domains: no count", "010001\n05\n", 2, 1),
    ("domains: none of one", "01000101\n05\n", 2, 1),
    ("domains: half of one", "0100010100\n05\n", 2, 1),
    ("domains: one and a byte", "01000101000000\n05\n", 2, 1),
    ("domains: two of one", "0100040100000001\n05\n", 2, 1),
    ("domains: one of two", "010004020000\n05\n", 2, 1),
    ("domains: one of none", "010004000000\n05\n", 2, 1),
    ("domains: one of 255", "010001ff0000\n05\n", 2, 1),
    ("flip-flop: one byte", "010001010000\n0200\n05\n", 2, 2),
    ("flip-flop: X alone", "010001010000\n020000\n05\n", 2, 2),
    (
        "flip-flop: a byte short",
        "010001010000\n02000000\n05\n",
        2,
        2,
    ),
    (
        "flip-flop: a byte more",
        "010001010000\n020000000000\n05\n",
        2,
        2,
    ),
    ("gate: no field", "010001010000\n03\n05\n", 2, 2),
    ("gate: d alone", "010001010000\n030000\n05\n", 2, 2),
    ("gate: a byte short", "010001010000\n03000000\n05\n", 2, 2),
    (
        "gate: a byte more",
        "010001010000\n030000000000\n05\n",
        2,
        2,
    ),
    ("wire: no field", "010001010000\n02\n04\n05\n", 2, 3),
    (
        "wire: a byte short",
        "010001010000\n02\n0400000000000000\n05\n",
        2,
        3,
    ),
    (
        "wire: a byte more",
        "010001010000\n02\n04000000000000000000\n05\n",
        2,
        3,
    ),
    ("end: a byte more", "010001010000\n0500\n", 2, 2),
    ("end: another end in it", "010001010000\n0505\n", 2, 2),
];

#[test]
fn kinds(rt: HostRuntime) -> Result<(), Fail> {
    check_refusals(&rt, rt.alloc(), KINDS)
}

#[test]
fn lengths(rt: HostRuntime) -> Result<(), Fail> {
    check_refusals(&rt, rt.alloc(), LENGTHS)
}
