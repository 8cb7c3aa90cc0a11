// Sheets as the tables of trials write them, and the table books that hold them.
use books::Book;
use period::Period;
use std::alloc::{AllocError, Global};
use std::process::Abort;
use std::test::Fail;
use tablebook::{Sheet, TableBook, TableCheck};

// Rows of figures.
pub type Table = &'static [&'static [u32]];

// The start, the end and the table of a check.
pub type Entry = (usize, usize, usize);

#[derive(Clone, Copy)]
pub struct Draft {
    pub flops: usize,
    pub domains: usize,
    pub floor: u32,
    pub tables: &'static [Table],
    pub entries: &'static [Entry],
}

// Filled, or the number of a refusal.
pub type Filling = Result<(), u8>;

pub const FILLED: Filling = Ok(());

// Two loops: tried as chains that are collected, and a closure that passes a `'static` list on was not proved.
fn rows_of(heap: Global, table: Table) -> Result<Vec<Vec<u32>>, AllocError> {
    let mut rows = Vec::new(heap);
    for row in table {
        rows.push(Vec::from_slice(heap, row)?)?;
    }
    Ok(rows)
}

pub fn tables_of(heap: Global, drafts: &[Table]) -> Result<Vec<Vec<Vec<u32>>>, AllocError> {
    let mut tables = Vec::new(heap);
    for table in drafts {
        tables.push(rows_of(heap, table)?)?;
    }
    Ok(tables)
}

fn checks_of(heap: Global, entries: &[Entry], turned: bool) -> Result<Vec<TableCheck>, AllocError> {
    let mut checks: Vec<TableCheck> = entries
        .iter()
        .map(|&(start, end, table)| TableCheck { start, end, table })
        .collect(heap)?;
    if turned {
        checks.reverse();
    }
    Ok(checks)
}

// Fills a book with a sheet.
pub fn fill_sheet(heap: Global, book: &mut TableBook, sheet: Sheet<'_>) -> Result<Filling, Fail> {
    match book.fill(sheet, heap) {
        Ok(()) => Ok(FILLED),
        Err(fault) => match fault.number() {
            Some(number) => Ok(Err(number)),
            None => Err(Fail::new("no memory")),
        },
    }
}

// Fills a book with a draft, its checks from first to last or, turned, from last to first. A flag: of two closures one would do nothing.
pub fn fill(
    heap: Global,
    book: &mut TableBook,
    draft: Draft,
    turned: bool,
) -> Result<Filling, Fail> {
    let tables = tables_of(heap, draft.tables)?;
    let checks = checks_of(heap, draft.entries, turned)?;
    let sheet = Sheet {
        flops: draft.flops,
        domains: draft.domains,
        floor: draft.floor,
        tables: tables.as_slice(),
        checks: checks.as_slice(),
    };
    fill_sheet(heap, book, sheet)
}

// A new book, filled.
pub fn filled_by<F: FnOnce(&mut TableBook) -> Result<Filling, Fail>>(
    heap: Global,
    fill: F,
) -> Result<TableBook, Fail>
    requires { F.IsAlwaysCallable fill }
{
    let mut book = TableBook::new(heap);
    fill(&mut book)?.map_err(|_| Fail::new("refused"))?;
    Ok(book)
}

// A new book that holds a draft.
pub fn filled(heap: Global, draft: Draft, turned: bool) -> Result<TableBook, Fail> {
    filled_by(heap, |book| fill(heap, book, draft, turned))
}

// Fills a book with so many checks from flip-flop 0 to flip-flop 1, all with the table 10 4 / 12 10.
pub fn fill_repeated(heap: Global, book: &mut TableBook, count: usize) -> Result<Filling, Fail> {
    let tables = tables_of(heap, &[&[&[10, 4], &[12, 10]]])?;
    let check = TableCheck {
        start: 0,
        end: 1,
        table: 0,
    };
    let checks = vec![in heap; check; count]?;
    let sheet = Sheet {
        flops: 2,
        domains: 2,
        floor: 0,
        tables: tables.as_slice(),
        checks: checks.as_slice(),
    };
    fill_sheet(heap, book, sheet)
}

// A new book with so many checks.
pub fn repeated(heap: Global, count: usize) -> Result<TableBook, Fail> {
    filled_by(heap, |book| fill_repeated(heap, book, count))
}

// A period by its two numbers.
pub fn numbers(period: Period) -> (u64, u16) {
    (period.numerator(), period.denominator())
}

// The need of a check of a book, by its two numbers.
fn need_of<B: Book>(book: &B, place: usize, start: usize, end: usize) -> Option<(u64, u16)> {
    Some(numbers(book.need(place, start, end)?))
}

// The counts and the floor of a book are those of a draft.
pub fn check_counts<B: Book>(rt: &impl Abort, name: &str, book: &B, draft: Draft) {
    let expected = (
        draft.flops,
        draft.domains,
        draft.entries.len(),
        draft.floor as u64,
    );
    let floor = book.floor().numerator();
    assert_eq!(rt;
        (book.flops(), book.domains(), book.checks(), floor),
        expected,
        "{name}"
    );
}

// A place, the start and the end of the check there, and its need in two domains.
pub type Reading = (
    usize,
    Option<usize>,
    Option<usize>,
    (usize, usize),
    Option<(u64, u16)>,
);

pub fn check_readings<B: Book>(rt: &impl Abort, book: &B, readings: &[Reading]) {
    for &(place, start, end, (m, n), need) in readings {
        let ends = book.ends(place);
        let found = (
            ends.map(|ends| ends.start),
            ends.map(|ends| ends.end),
            need_of(book, place, m, n),
        );
        assert_eq!(rt; found, (start, end, need), "{}", place);
    }
}
