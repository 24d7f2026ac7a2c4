//! Sets of kinds: few kinds stand in the value itself, and more in an allocation.
#![tactic(auto)]

mod mask;
mod mask_iter;
mod merge;
mod shape;

pub use mask::Mask;
pub use mask_iter::MaskIter;
pub use shape::Shape;

#[cfg(test)]
mod tests;
