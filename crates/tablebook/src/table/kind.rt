// A table book is a book of checks.
ghost use Rattle.std.specs.Prelude.{◌≡◌};
ghost use Rattle.std.specs.List.{slice_get};
ghost use Rattle.tablebook.specs.Held.{table_meaning, held};
ghost use Rattle.tablebook.specs.Kept.{kept_sound};

use crate::sheet::TableCheck;
use crate::table::TableBook;
use books::{Book, Ends};
use period::Period;

impl TableBook {
    fn check(&self, place: usize) -> Option<TableCheck>
        ensures { result ≡ slice_get self.now.checks.items place }
    {
        self.checks.get(place).copied()
    }
}

impl Book for TableBook {
    ghost meaning = { table_meaning };

    ghost sound = { λ b. kept_sound (held b) b.kept };

    fn flops(&self) -> usize {
        self.flops
    }

    fn domains(&self) -> usize {
        self.domains
    }

    fn checks(&self) -> usize {
        self.checks.len()
    }

    fn floor(&self) -> Period {
        Period::from(self.floor)
    }

    fn ends(&self, place: usize) -> Option<Ends> {
        let check = self.check(place)?;
        Some(Ends {
            start: check.start,
            end: check.end,
        })
    }

    // The figure of the check's table in the row of one domain and the column of the other.
    fn need(&self, place: usize, start_domain: usize, end_domain: usize) -> Option<Period> {
        if start_domain >= self.domains || end_domain >= self.domains {
            return None;
        }
        let check = self.check(place)?;
        Some(Period::from(self.tables[check.table][start_domain][end_domain]))
    }
}
