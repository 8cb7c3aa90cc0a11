// The digit layer: the bytes that a line holds.
ghost use Rattle.std.specs.Prelude.{◌≡◌, Some, MatchResult};
ghost use Rattle.dumps.specs.Reading.{value, decoded, held};
ghost use Rattle.loader.specs.Digits.{Misspelled, Unread};

use crate::faults::LineFault;
use dumps::Ground;
use std::alloc::Global;

pub(crate) const LINE_FEED: u8 = b'\n';

// Digits are hexadecimal, and the letter a stands for ten.
const BASE: u8 = 16;

const TEN: u8 = 10;

// The digits of a byte.
const PAIR: usize = 2;

// The value of a hexadecimal digit. By hand: the library reads capitals and signs too, which no dump may hold.
fn value(digit: u8) -> Result<u8, LineFault>
    ensures { MatchResult result (λ v. value digit ≡ Some v) (λ e. Misspelled e (value digit)) }
{
    match digit {
        b'0'..=b'9' => Ok(digit - b'0'),
        b'a'..=b'f' => Ok(digit - b'a' + TEN),
        _ => Err(LineFault::Refused(Ground::Spelling)),
    }
}

// The bytes that digits spell, two a byte.
fn spelled(digits: &[u8], heap: Global) -> Result<Vec<u8>, LineFault>
    ensures { MatchResult result (λ v. decoded digits.now ≡ Some v.items) (λ e. Unread e (decoded digits.now)) }
{
    let (pairs, rest) = digits.as_chunks::<PAIR>();
    if !rest.is_empty() {
        return Err(LineFault::Refused(Ground::Spelling));
    }
    let mut bytes = Vec::new(heap);
    for [high, low] in pairs {
        bytes.push(value(*high)? * BASE + value(*low)?)?;
    }
    Ok(bytes)
}

// The bytes that a line holds, with the line feed that ends it.
pub fn decode(line: &[u8], heap: Global) -> Result<Vec<u8>, LineFault>
    ensures { MatchResult result (λ v. held line.now ≡ Some v.items) (λ e. Unread e (held line.now)) }
{
    match line {
        [digits @ .., LINE_FEED] if !digits.is_empty() => spelled(digits, heap),
        _ => Err(LineFault::Refused(Ground::Spelling)),
    }
}
