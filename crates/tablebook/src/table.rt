// The table book. None that breaks a limit or a law can exist.
ghost use Rattle.std.specs.Prelude.{◌≡◌};
ghost use Rattle.tablebook.specs.Sheets.{Kept, blank, FillCall};
ghost use Rattle.tablebook.specs.Tables.{sheet, given};

use crate::faults::FillFault;
use crate::sheet::{Sheet, TableCheck};
use std::alloc::Global;

pub(crate) mod kind;

#[derive(Drop)]
pub struct TableBook {
    flops: usize,
    domains: usize,
    floor: u32,
    tables: Vec<Vec<Vec<u32>>>,
    checks: Vec<TableCheck>,
    ghost kept: { Kept (sheet flops domains floor tables.items checks.items) },
}

impl TableBook {
    ghost use Rattle.tablebook.specs.Held.{held};
    ghost use Rattle.tablebook.specs.Refusals.{fill_answer};

    // One domain, floor 0, nothing else.
    pub fn new(heap: Global) -> TableBook
        ensures { held result ≡ blank }
    {
        TableBook {
            flops: 0,
            domains: 1,
            floor: 0,
            tables: Vec::new(heap),
            checks: Vec::new(heap),
        }
    }

    // Takes what the sheet holds in place of what the book held, or leaves the book as it was.
    pub fn fill(&mut self, sheet: Sheet<'_>, heap: Global) -> Result<(), FillFault>
        ensures { FillCall (held self.old) (given sheet.entry) (fill_answer result) (held self.new) }
    {
        if !sheet.fits() {
            return Err(FillFault::Limits);
        }
        if !sheet.is_lawful() {
            return Err(FillFault::Laws);
        }
        let tables = Vec::from_clones(heap, sheet.tables)?;
        let checks = Vec::from_slice(heap, sheet.checks)?;
        *self = TableBook {
            flops: sheet.flops,
            domains: sheet.domains,
            floor: sheet.floor,
            tables,
            checks,
        };
        Ok(())
    }
}
