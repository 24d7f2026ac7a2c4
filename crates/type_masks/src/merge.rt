//! Ascending lists of kinds that become one.
ghost use Rattle.std.specs.Prelude.{◌≡◌, ◌≤◌, ◌++◌, IfOk, drop, length};
ghost use Rattle.type_masks.specs.Merge.{merge};

use smallvec::SmallVec;
use std::alloc::{AllocError, Global};

/// What either list has, each once where both are ascending.
pub fn merged(alloc: Global, a: &[u32], b: &[u32]) -> Result<SmallVec<u32, 8>, AllocError>
    ensures { IfOk result (λ all. all.items ≡ merge a.now b.now) }
{
    let mut all = SmallVec::new(alloc);
    let (i, j) = merge_both(&mut all, a, b)?;
    all.extend_from_slice(&a[i..])?;
    all.extend_from_slice(&b[j..])?;
    Ok(all)
}

// Merges until one list is at its end, and answers the place in each.
fn merge_both(
    all: &mut SmallVec<u32, 8>,
    a: &[u32],
    b: &[u32],
) -> Result<(usize, usize), AllocError>
    ensures within { IfOk result (λ places. (places.0 ≤ length a.now) × (places.1 ≤ length b.now)) }
    ensures items { IfOk result (λ places. all.new.items ++ (drop places.0 a.now ++ drop places.1 b.now) ≡ all.old.items ++ merge a.now b.now) }
{
    let mut i = 0;
    let mut j = 0;
    while i < a.len() && j < b.len() {
        if a[i] < b[j] {
            all.push(a[i])?;
            i += 1;
        } else if b[j] < a[i] {
            all.push(b[j])?;
            j += 1;
        } else {
            all.push(a[i])?;
            i += 1;
            j += 1;
        }
    }
    Ok((i, j))
}
