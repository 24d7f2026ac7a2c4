//! The kinds of a mask, one after another.
ghost use Rattle.std.specs.Prelude.{MatchOption, length};
ghost use Rattle.std.specs.Iterator.{YieldsFirst, item_count};

/// The kinds of a mask, in ascending order.
#[derive(Drop)]
pub struct MaskIter<'a> {
    pub(crate) rest: &'a [u32],
}

impl<'a> Iterator for MaskIter<'a> {
    type Item = u32;

    ghost next_gives = { YieldsFirst (λ kinds. kinds.rest.now) };

    ghost remaining = { item_count (λ kinds. kinds.rest.now) };

    fn next(&mut self) -> Option<u32> {
        let (first, others) = self.rest.split_first()?;
        self.rest = others;
        Some(*first)
    }
}
