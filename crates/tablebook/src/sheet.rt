// What is handed to a table book.
ghost use Rattle.std.specs.Prelude.{◌↔◌, IsTrue, length};
ghost use Rattle.std.specs.List.{All};
ghost use Rattle.tablebook.specs.Sheets.{Fits, CountsFit, TableFits, EntryFits, AllLawful};

use crate::fitting::{keeps_laws, table_fits};
use crate::limits::{MOST_FIGURE, MOST_TABLE_CHECKS};
use books::limits::{MOST_DOMAINS, MOST_FLOPS};

// One check: the flip-flops where it starts and ends, and the number of its table.
#[derive(Clone, Copy)]
pub struct TableCheck {
    pub start: usize,
    pub end: usize,
    pub table: usize,
}

// Figures and lists of any contents. The floor and the figures of the tables are whole periods; a table has one row for each
// domain of a check's start and one column for each domain of its end.
#[derive(Clone, Copy)]
pub struct Sheet<'a> {
    pub flops: usize,
    pub domains: usize,
    pub floor: u32,
    pub tables: &'a [Vec<Vec<u32>>],
    pub checks: &'a [TableCheck],
}

impl TableCheck {
    ghost use Rattle.tablebook.specs.Tables.{entry_of};

    fn fits(&self, flops: usize, tables: usize) -> bool
        ensures { IsTrue result ↔ EntryFits flops tables (entry_of self.now) }
    {
        self.start < flops && self.end < flops && self.table < tables
    }
}

impl Sheet<'_> {
    ghost use Rattle.tablebook.specs.Tables.{given, rows_of, entry_of};

    fn counts_fit(&self) -> bool
        ensures { IsTrue result ↔ CountsFit self.now.flops self.now.domains (length self.now.checks.now) self.now.floor }
    {
        self.flops <= MOST_FLOPS
            && (1..=MOST_DOMAINS).contains(&self.domains)
            && self.checks.len() <= MOST_TABLE_CHECKS
            && self.floor <= MOST_FIGURE
    }

    fn tables_fit(&self) -> bool
        ensures { IsTrue result ↔ All (λ table. TableFits self.now.domains (rows_of table)) self.now.tables.now }
    {
        self.tables
            .iter()
            .all(|table| table_fits(table, self.domains))
    }

    fn checks_fit(&self) -> bool
        ensures { IsTrue result ↔ All (λ check. EntryFits self.now.flops (length self.now.tables.now) (entry_of check)) self.now.checks.now }
    {
        self.checks
            .iter()
            .all(|check| check.fits(self.flops, self.tables.len()))
    }

    // Whether it is within every limit of a table book.
    #[tactic(auto, using(crate::proofs::Within::fits_from, crate::proofs::Within::counts_of, crate::proofs::Within::tables_of, crate::proofs::Within::checks_of))]
    pub(crate) fn fits(&self) -> bool
        ensures { IsTrue result ↔ Fits (given self.now) }
    {
        self.counts_fit() && self.tables_fit() && self.checks_fit()
    }

    // Whether each table keeps both laws.
    #[tactic(auto, using(crate::proofs::Stairs::laws_of, crate::proofs::Stairs::steps_of))]
    pub(crate) fn is_lawful(&self) -> bool
        ensures { Fits (given self.now) → (IsTrue result ↔ AllLawful (given self.now)) }
    {
        self.tables.iter().all(|table| keeps_laws(table))
    }
}
