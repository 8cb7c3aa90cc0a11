// A table of elements, numbered from 0, that never holds more than its limit.
ghost use Rattle.std.specs.Prelude.{◌≡◌, ◌<◌, ◌≤◌, ◌↔◌, [], ◌∷◌, ◌++◌, length, is_ok, if◌then◌else◌, IsOk, IsSome, IfErr, IfSome, slice_index_or};
ghost use Rattle.std.specs.Borrow.{sem};
ghost use Rattle.netlist.specs.declared.faults.BlockFault.TheVariants.{Surplus};

use crate::faults::BlockFault;
use std::alloc::{AllocError, Global};
use std::marker::Model;

#[derive(Drop)]
pub(crate) struct Table<T, const MOST: usize> {
    rows: Vec<T>,
}

impl<T, const MOST: usize> Model for Table<T, MOST> {
    ghost use Rattle.std.specs.Prelude.{◌≤◌, List, vec_len};

    ghost Value = { List T };

    ghost view = { λ t. t.rows.items };

    ghost invariant = { λ t. vec_len t.rows ≤ MOST };
}

impl<T: Drop, const MOST: usize> Table<T, MOST> {
    ghost use Rattle.netlist.specs.Table.{LendsRow};

    pub(crate) fn new(heap: Global) -> Self
        ensures { result ≡ [] }
    {
        Table {
            rows: Vec::new(heap),
        }
    }

    pub(crate) fn as_slice(&self) -> &[T]
        ensures rows { result.now ≡ self.now }
        ensures few { length result.now ≤ MOST }
    {
        self.rows.as_slice()
    }

    // Refuses where the table is full.
    pub(crate) fn room(&self) -> Result<(), BlockFault>
        ensures room { IsOk result ↔ (length self.now < MOST) }
        ensures full { IfErr result (λ e. e ≡ Surplus) }
    {
        if self.rows.len() < MOST {
            Ok(())
        } else {
            Err(BlockFault::Surplus)
        }
    }

    // One element more, or no memory for it.
    pub(crate) fn push(&mut self, row: T) -> Result<(), AllocError>
        requires { length self.old < MOST }
        ensures { self.new ≡ (if is_ok result then self.old ++ row ∷ [] else self.old) }
    {
        self.rows.push(row)?;
        Ok(())
    }

    // The element of this number, lent for a change.
    pub(crate) fn lend(&mut self, number: usize) -> Option<&mut T>
        ensures* writes_back { sem 𝓛 (LendsRow T.row MOST.row self.entry number result) }
        ensures there { IsSome result ↔ (number < length self.old) }
        ensures row { IfSome result (λ x. x.now ≡ slice_index_or self.old number x.now) }
    {
        self.rows.get_mut(number)
    }
}
