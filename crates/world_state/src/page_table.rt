//! Pages that worlds and snapshots share.
ghost use Rattle.std.specs.Prelude.{◌≡◌, ◌<◌, IfOk, OnOk, OnErr, length, replicate};
ghost use Rattle.world_state.specs.Pages.{nothing_below, mask_of, with_kind_at, all_masks, AreOf};

use crate::page;
use crate::page::Page;
use std::alloc::{AllocError, Global};
use std::marker::Model;
use std::sync::Arc;
use type_masks::Mask;

const PAGES: usize = 64;

/// How many masks the pages of a table have.
pub const MASKS: usize = PAGES * page::MASKS;

/// 64 pages. Several worlds and snapshots may have one table, which then stays as it is.
#[derive(Drop)]
pub struct PageTable {
    pages: Arc<Vec<Page>>,
}

impl Model for PageTable {
    ghost use Rattle.std.specs.Prelude.{◌≡◌, List, length};
    ghost use Rattle.std.specs.Coded.{coded_list};
    ghost use Rattle.std.specs.Arc.{arc_value};
    ghost use Rattle.type_masks.specs.Masks.{Kinds, coded_Kinds};
    ghost use Rattle.world_state.specs.Pages.{all_masks, AreOf};

    ghost Value = { List Kinds };

    ghost coded = { coded_list coded_Kinds };

    ghost view = { λ table. all_masks (arc_value table.pages).items };

    ghost invariant = { λ table. AreOf 64 (arc_value table.pages).items };
}

impl PageTable {
    /// A table of empty masks below the bound.
    pub fn new(alloc: Global, bound: u32) -> Result<PageTable, AllocError>
        ensures empty { IfOk result (λ table. table ≡ replicate (length table) (nothing_below bound)) }
        ensures size { IfOk result (λ table. length table ≡ 4096) }
    {
        let pages = repeated(alloc, &Page::new(alloc, bound)?)?;
        Ok(PageTable {
            pages: Arc::new(alloc, pages)?,
        })
    }

    /// The same table once more. No page is copied.
    pub fn share(&self) -> Result<PageTable, AllocError>
        ensures { IfOk result (λ table. table ≡ self.now) }
    {
        Ok(PageTable {
            pages: Arc::try_clone(&self.pages)?,
        })
    }

    /// The mask at a place.
    pub fn mask(&self, place: usize) -> &Mask
        requires { place < length self.now }
        ensures { result.now ≡ mask_of self.now place }
    {
        mask_among(self.pages.as_slice(), place)
    }

    /// Adds a kind to the mask at a place. A table that others have too is copied before, by sharing its pages.
    /// An `Err` changes nothing.
    pub fn add(&mut self, place: usize, kind: u32) -> Result<(), AllocError>
        requires place { place < length self.old }
        requires kind { kind < (mask_of self.old place).bound }
        ensures ok { OnOk result (self.new ≡ with_kind_at self.old place kind) }
        ensures err { OnErr result (self.new ≡ self.old) }
    {
        match Arc::get_mut(&mut self.pages) {
            Some(pages) => add_to(pages, place, kind),
            None => {
                let mut pages = shared(&self.pages)?;
                add_to(&mut pages, place, kind)?;
                let alloc = *pages.allocator();
                self.pages = Arc::new(alloc, pages)?;
                Ok(())
            }
        }
    }
}

fn mask_among(pages: &[Page], place: usize) -> &Mask
    requires pages { AreOf 64 pages.now }
    requires place { place < length (all_masks pages.now) }
    ensures { result.now ≡ mask_of (all_masks pages.now) place }
{
    pages[place / page::MASKS].mask(place % page::MASKS)
}

// An `Err` changes nothing.
fn add_to(pages: &mut Vec<Page>, place: usize, kind: u32) -> Result<(), AllocError>
    requires pages { AreOf 64 pages.old.items }
    requires place { place < length (all_masks pages.old.items) }
    requires kind { kind < (mask_of (all_masks pages.old.items) place).bound }
    ensures pages { AreOf 64 pages.new.items }
    ensures ok { OnOk result (all_masks pages.new.items ≡ with_kind_at (all_masks pages.old.items) place kind) }
    ensures err { OnErr result (all_masks pages.new.items ≡ all_masks pages.old.items) }
{
    pages[place / page::MASKS].add(place % page::MASKS, kind)
}

fn repeated(alloc: Global, page: &Page) -> Result<Vec<Page>, AllocError>
    ensures { IfOk result (λ pages. pages.items ≡ replicate 64 page.now) }
{
    let mut pages = Vec::with_capacity(alloc, PAGES)?;
    for _ in 0..PAGES {
        pages.push(page.share()?)?;
    }
    Ok(pages)
}

fn shared(pages: &Vec<Page>) -> Result<Vec<Page>, AllocError>
    ensures { IfOk result (λ copy. copy.items ≡ pages.now.items) }
{
    let mut copy = Vec::with_capacity(*pages.allocator(), pages.len())?;
    for page in pages {
        copy.push(page.share()?)?;
    }
    Ok(copy)
}
