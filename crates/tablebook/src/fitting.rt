// Whether tables are within the limits of a table book, and whether they keep both laws.
ghost use Rattle.std.specs.Prelude.{◌↔◌, length, IsTrue, map, vec_items};
ghost use Rattle.std.specs.List.{AllAdjacentBelow};
ghost use Rattle.tablebook.specs.Sheets.{RowFits, TableFits, NeverRises, StaysUnder};
ghost use Rattle.tablebook.specs.Tables.{LawfulByStep};

use crate::limits::MOST_FIGURE;

fn row_fits(row: &[u32], domains: usize) -> bool
    ensures { IsTrue result ↔ RowFits domains row.now }
{
    row.len() == domains && row.iter().all(|figure| *figure <= MOST_FIGURE)
}

pub(crate) fn table_fits(rows: &[Vec<u32>], domains: usize) -> bool
    ensures { IsTrue result ↔ TableFits domains (map vec_items rows.now) }
{
    rows.len() == domains && rows.iter().all(|row| row_fits(row, domains))
}

// Whether no figure of a row is above the one before it.
fn never_rises(row: &[u32]) -> bool
    ensures { IsTrue result ↔ NeverRises row.now }
{
    row.windows(2).all(|pair| pair[0] >= pair[1])
}

// Whether no figure of a row is above the one below it.
fn stays_under(row: &[u32], below: &[u32]) -> bool
    ensures { IsTrue result ↔ StaysUnder row.now below.now }
{
    row.iter().zip(below).all(|(here, there)| here <= there)
}

fn never_falls(rows: &[Vec<u32>]) -> bool
    ensures { IsTrue result ↔ AllAdjacentBelow (λ row below. StaysUnder row.items below.items) rows.now (length rows.now) }
{
    rows.windows(2).all(|pair| stays_under(&pair[0], &pair[1]))
}

// Whether a table keeps both laws, from each row and column to the next.
#[tactic(auto, unfolding(crate::specs::Tables::LawfulByStep))]
pub(crate) fn keeps_laws(rows: &[Vec<u32>]) -> bool
    ensures { IsTrue result ↔ LawfulByStep rows.now }
{
    rows.iter().all(|row| never_rises(row)) && never_falls(rows)
}
