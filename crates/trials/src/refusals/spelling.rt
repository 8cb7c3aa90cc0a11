// Lines that hold no bytes.
use crate::refusals::{Case, check_refusals};
use std::test::Fail;

const DIGITS: &[Case] = &[
    ("a letter alone", "x\n", 1, 1),
    ("a letter past f", "01000101000g\n05\n", 1, 1),
    ("the sign before 0", "01000101000/\n05\n", 1, 1),
    ("the sign past 9", "01000101000:\n05\n", 1, 1),
    ("the sign before a", "01000101000`\n05\n", 1, 1),
    ("a capital", "01000A010000\n05\n", 1, 1),
    ("a capital on the last line", "010001010000\n0A\n", 1, 2),
    ("a blank", "01000101 000\n05\n", 1, 1),
    ("blanks between fields", "01 0001 01 0000\n05\n", 1, 1),
    ("blanks in front", "  010001010000\n05\n", 1, 1),
    ("blanks alone", "010001010000\n  \n05\n", 1, 2),
    ("a blank at the end", "010001010000\n05 \n", 1, 2),
    ("two blanks at the end", "010001010000\n05  \n", 1, 2),
    ("tabs", "010001010000\n\t\t\n05\n", 1, 2),
    ("carriage returns", "010001010000\r\n05\r\n", 1, 1),
    (
        "a carriage return on the last line",
        "010001010000\n05\r\n",
        1,
        2,
    ),
    ("two carriage returns", "010001010000\n05\r\r\n", 1, 2),
    (
        "a carriage return for a line feed",
        "010001010000\r05\r",
        1,
        1,
    ),
    ("zero bytes", "0100010100\0\0\n05\n", 1, 1),
    ("bytes above 127", "0100010100\u{e9}\n05\n", 1, 1),
    ("a sign", "010001010000\n02000000-1\n05\n", 1, 2),
    ("a prefix", "0x010001010000\n05\n", 1, 1),
];

const LINES: &[Case] = &[
    ("half a byte alone", "0\n", 1, 1),
    ("an odd count on the first line", "01000101000\n05\n", 1, 1),
    (
        "an odd count on the second line",
        "010001010000\n020\n05\n",
        1,
        2,
    ),
    ("an odd count on the last line", "010001010000\n050\n", 1, 2),
    ("an odd count after the end", "010001010000\n05\n5\n", 1, 3),
    ("a line feed alone", "\n", 1, 1),
    ("an empty line in front", "\n010001010000\n05\n", 1, 1),
    ("an empty line between frames", "010001010000\n\n05\n", 1, 2),
    ("an empty line after the end", "010001010000\n05\n\n", 1, 3),
    ("no line feed", "010001010000", 1, 1),
    ("no final line feed", "010001010000\n05", 1, 2),
    (
        "a frame after the last line feed",
        "010001010000\n05\n05",
        1,
        3,
    ),
    (
        "a digit after the last line feed",
        "010001010000\n05\n0",
        1,
        3,
    ),
    (
        "a blank after the last line feed",
        "010001010000\n05\n ",
        1,
        3,
    ),
];

#[test]
fn digits(rt: HostRuntime) -> Result<(), Fail> {
    check_refusals(&rt, rt.alloc(), DIGITS)
}

#[test]
fn lines(rt: HostRuntime) -> Result<(), Fail> {
    check_refusals(&rt, rt.alloc(), LINES)
}
