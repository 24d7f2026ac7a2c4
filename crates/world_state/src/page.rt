//! Masks that worlds and snapshots share.
ghost use Rattle.std.specs.Prelude.{◌≡◌, ◌<◌, IfOk, OnOk, OnErr, length, replicate};
ghost use Rattle.world_state.specs.Pages.{nothing_below, mask_of, with_kind_at};

use std::alloc::{AllocError, Global};
use std::marker::Model;
use std::sync::Arc;
use type_masks::Mask;

/// How many masks a page has.
pub const MASKS: usize = 64;

/// 64 masks. Several worlds and snapshots may have one page, which then stays as it is.
#[derive(Drop)]
pub struct Page {
    masks: Arc<Vec<Mask>>,
}

impl Model for Page {
    ghost use Rattle.std.specs.Prelude.{List};
    ghost use Rattle.std.specs.Coded.{coded_list};
    ghost use Rattle.std.specs.Arc.{arc_value};
    ghost use Rattle.type_masks.specs.Masks.{Kinds, coded_Kinds};

    ghost Value = { List Kinds };

    ghost coded = { coded_list coded_Kinds };

    ghost view = { λ page. (arc_value page.masks).items };
}

impl Page {
    /// A page of empty masks below the bound.
    pub fn new(alloc: Global, bound: u32) -> Result<Page, AllocError>
        ensures empty { IfOk result (λ page. page ≡ replicate (length page) (nothing_below bound)) }
        ensures size { IfOk result (λ page. length page ≡ 64) }
    {
        let mut masks = Vec::with_capacity(alloc, MASKS)?;
        for _ in 0..MASKS {
            masks.push(Mask::new(alloc, bound))?;
        }
        Ok(Page {
            masks: Arc::new(alloc, masks)?,
        })
    }

    /// The same page once more. No mask is copied.
    pub fn share(&self) -> Result<Page, AllocError>
        ensures { IfOk result (λ page. page ≡ self.now) }
    {
        Ok(Page {
            masks: Arc::try_clone(&self.masks)?,
        })
    }

    /// The mask at a place.
    pub fn mask(&self, place: usize) -> &Mask
        requires { place < length self.now }
        ensures { result.now ≡ mask_of self.now place }
    {
        &self.masks[place]
    }

    /// Adds a kind to the mask at a place. A page that others have too is copied before. An `Err` changes nothing.
    pub fn add(&mut self, place: usize, kind: u32) -> Result<(), AllocError>
        requires place { place < length self.old }
        requires kind { kind < (mask_of self.old place).bound }
        ensures ok { OnOk result (self.new ≡ with_kind_at self.old place kind) }
        ensures err { OnErr result (self.new ≡ self.old) }
    {
        match Arc::get_mut(&mut self.masks) {
            Some(masks) => add_to(masks, place, kind),
            None => {
                let mut masks = copied(&self.masks)?;
                add_to(&mut masks, place, kind)?;
                let alloc = *masks.allocator();
                self.masks = Arc::new(alloc, masks)?;
                Ok(())
            }
        }
    }
}

// An `Err` changes nothing.
fn add_to(masks: &mut Vec<Mask>, place: usize, kind: u32) -> Result<(), AllocError>
    requires place { place < length masks.old.items }
    requires kind { kind < (mask_of masks.old.items place).bound }
    ensures ok { OnOk result (masks.new.items ≡ with_kind_at masks.old.items place kind) }
    ensures err { OnErr result (masks.new.items ≡ masks.old.items) }
{
    masks[place].add(kind)?;
    Ok(())
}

fn copied(masks: &Vec<Mask>) -> Result<Vec<Mask>, AllocError>
    ensures { IfOk result (λ copy. copy.items ≡ masks.now.items) }
{
    let mut copy = Vec::with_capacity(*masks.allocator(), masks.len())?;
    for mask in masks {
        copy.push(mask.copy()?)?;
    }
    Ok(copy)
}
