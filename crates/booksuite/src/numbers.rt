// Books as decimal numbers.
use std::alloc::{AllocError, Global};
use tablebook::TableCheck;

const BASE: u64 = 10;

// The numbers of a text, in turn. A number is a run of digits, and any other byte stands between two.
#[derive(Drop)]
pub struct Numbers<'a> {
    rest: &'a [u8],
}

impl<'a> Numbers<'a> {
    pub fn new(text: &'a [u8]) -> Numbers<'a> {
        Numbers { rest: text }
    }

    // The next number, as far as it fits, and 0 past the last one, so that a text that ends early counts nothing more; an `Option` would be taken
    // apart at each field.
    pub fn number(&mut self) -> u64 {
        let rest = self.rest;
        let mut value: Option<u64> = None;
        for (at, byte) in rest.iter().enumerate() {
            match (byte, value) {
                (b'0'..=b'9', _) => {
                    let tens = value.unwrap_or(0).saturating_mul(BASE);
                    value = Some(tens.saturating_add(u64::from(*byte - b'0')));
                }
                (_, Some(number)) => {
                    self.rest = &rest[at..];
                    return number;
                }
                (_, None) => {}
            }
        }
        self.rest = &rest[rest.len()..];
        value.unwrap_or(0)
    }
}

// What is read from numbers in turn.
pub trait FromNumbers: Sized {
    fn read(numbers: &mut Numbers<'_>, heap: Global) -> Result<Self, AllocError>;
}

impl FromNumbers for u64 {
    fn read(numbers: &mut Numbers<'_>, _heap: Global) -> Result<u64, AllocError> {
        Ok(numbers.number())
    }
}

impl FromNumbers for usize {
    fn read(numbers: &mut Numbers<'_>, _heap: Global) -> Result<usize, AllocError> {
        Ok(numbers.number() as usize)
    }
}

impl FromNumbers for u32 {
    fn read(numbers: &mut Numbers<'_>, _heap: Global) -> Result<u32, AllocError> {
        Ok(u32::try_from(numbers.number()).unwrap_or(u32::MAX))
    }
}

impl FromNumbers for (u64, u64) {
    fn read(numbers: &mut Numbers<'_>, heap: Global) -> Result<(u64, u64), AllocError> {
        Ok((u64::read(numbers, heap)?, u64::read(numbers, heap)?))
    }
}

impl FromNumbers for TableCheck {
    fn read(numbers: &mut Numbers<'_>, heap: Global) -> Result<TableCheck, AllocError> {
        Ok(TableCheck {
            start: usize::read(numbers, heap)?,
            end: usize::read(numbers, heap)?,
            table: usize::read(numbers, heap)?,
        })
    }
}

// A count, and then so many.
impl<T: FromNumbers + Drop> FromNumbers for Vec<T> {
    fn read(numbers: &mut Numbers<'_>, heap: Global) -> Result<Vec<T>, AllocError> {
        let mut items = Vec::new(heap);
        for _ in 0..numbers.number() {
            items.push(T::read(numbers, heap)?)?;
        }
        Ok(items)
    }
}

#[derive(Drop)]
pub struct Case {
    pub flops: usize,
    pub domains: usize,
    pub floor: u32,
    pub tables: Vec<Vec<Vec<u32>>>,
    pub checks: Vec<TableCheck>,
    pub cut: usize,
    pub periods: Vec<(u64, u64)>,
}

impl FromNumbers for Case {
    fn read(numbers: &mut Numbers<'_>, heap: Global) -> Result<Case, AllocError> {
        Ok(Case {
            flops: FromNumbers::read(numbers, heap)?,
            domains: FromNumbers::read(numbers, heap)?,
            floor: FromNumbers::read(numbers, heap)?,
            tables: FromNumbers::read(numbers, heap)?,
            checks: FromNumbers::read(numbers, heap)?,
            cut: FromNumbers::read(numbers, heap)?,
            periods: FromNumbers::read(numbers, heap)?,
        })
    }
}
