//! Masks that are shared until they change.
ghost use Rattle.std.specs.Prelude.{◌≡◌, ◌<◌, ◌≤◌, IfOk, OnOk, OnErr, length, replicate};
ghost use Rattle.world_state.specs.Pages.{nothing_below, mask_of, with_kind_at, all_masks, AreOf};

use crate::page_table;
use crate::page_table::PageTable;
use std::alloc::{AllocError, Global};
use std::marker::Model;
use type_masks::Mask;

/// Numbered masks in tables of pages.
#[derive(Drop)]
pub struct Masks {
    tables: Vec<PageTable>,
}

impl Model for Masks {
    ghost use Rattle.std.specs.Prelude.{List};
    ghost use Rattle.std.specs.Coded.{coded_list};
    ghost use Rattle.type_masks.specs.Masks.{Kinds, coded_Kinds};
    ghost use Rattle.world_state.specs.Pages.{all_masks, AreOf};

    ghost Value = { List Kinds };

    ghost coded = { coded_list coded_Kinds };

    ghost view = { λ masks. all_masks masks.tables.items };

    ghost invariant = { λ masks. AreOf 4096 masks.tables.items };
}

impl Masks {
    /// So many empty masks below the bound, and those that fill the last table. All have one page.
    pub fn new(alloc: Global, count: u32, bound: u32) -> Result<Masks, AllocError>
        ensures empty { IfOk result (λ masks. masks ≡ replicate (length masks) (nothing_below bound)) }
        ensures count { IfOk result (λ masks. count ≤ length masks) }
    {
        let table = PageTable::new(alloc, bound)?;
        let tables = (count as usize).div_ceil(page_table::MASKS);
        Ok(Masks {
            tables: repeated(alloc, &table, tables)?,
        })
    }

    /// The allocator of the masks.
    pub fn alloc(&self) -> Global {
        *self.tables.allocator()
    }

    /// The same masks once more. No page is copied.
    pub fn share(&self) -> Result<Masks, AllocError>
        ensures { IfOk result (λ masks. masks ≡ self.now) }
    {
        Ok(Masks {
            tables: shared(&self.tables)?,
        })
    }

    /// The mask of a number.
    pub fn mask(&self, number: usize) -> &Mask
        requires { number < length self.now }
        ensures { result.now ≡ mask_of self.now number }
    {
        mask_among(self.tables.as_slice(), number)
    }

    /// Adds a kind to the mask of a number. A page that others have too is copied before. An `Err` changes nothing.
    pub fn add(&mut self, number: usize, kind: u32) -> Result<(), AllocError>
        requires number { number < length self.old }
        requires kind { kind < (mask_of self.old number).bound }
        ensures ok { OnOk result (self.new ≡ with_kind_at self.old number kind) }
        ensures err { OnErr result (self.new ≡ self.old) }
    {
        add_to(&mut self.tables, number, kind)
    }
}

fn mask_among(tables: &[PageTable], number: usize) -> &Mask
    requires tables { AreOf 4096 tables.now }
    requires number { number < length (all_masks tables.now) }
    ensures { result.now ≡ mask_of (all_masks tables.now) number }
{
    tables[number / page_table::MASKS].mask(number % page_table::MASKS)
}

// An `Err` changes nothing.
fn add_to(tables: &mut Vec<PageTable>, number: usize, kind: u32) -> Result<(), AllocError>
    requires tables { AreOf 4096 tables.old.items }
    requires number { number < length (all_masks tables.old.items) }
    requires kind { kind < (mask_of (all_masks tables.old.items) number).bound }
    ensures tables { AreOf 4096 tables.new.items }
    ensures ok { OnOk result (all_masks tables.new.items ≡ with_kind_at (all_masks tables.old.items) number kind) }
    ensures err { OnErr result (all_masks tables.new.items ≡ all_masks tables.old.items) }
{
    tables[number / page_table::MASKS].add(number % page_table::MASKS, kind)
}

fn repeated(alloc: Global, table: &PageTable, count: usize) -> Result<Vec<PageTable>, AllocError>
    ensures { IfOk result (λ tables. tables.items ≡ replicate count table.now) }
{
    let mut tables = Vec::with_capacity(alloc, count)?;
    for _ in 0..count {
        tables.push(table.share()?)?;
    }
    Ok(tables)
}

fn shared(tables: &Vec<PageTable>) -> Result<Vec<PageTable>, AllocError>
    ensures { IfOk result (λ copy. copy.items ≡ tables.now.items) }
{
    let mut copy = Vec::with_capacity(*tables.allocator(), tables.len())?;
    for table in tables {
        copy.push(table.share()?)?;
    }
    Ok(copy)
}
