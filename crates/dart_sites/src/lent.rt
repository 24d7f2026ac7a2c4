//! References that contracts see as what they refer to, so that what holds parts of a tree is plain data.
ghost use Rattle.std.specs.Prelude.{◌≡◌};

use std::marker::Model;

/// A reference.
#[derive(Drop)]
pub struct Lent<'a, T> {
    item: &'a T,
}

impl<'a, T> Model for Lent<'a, T> {
    ghost Value = { T };

    ghost coded = { T.code };

    ghost view = { λ lent. lent.item.now };
}

impl<'a, T> Lent<'a, T> {
    /// A reference to this.
    pub fn new(item: &'a T) -> Lent<'a, T>
        ensures { result ≡ item.now }
    {
        Lent { item }
    }

    /// What it refers to.
    pub fn get(&self) -> &'a T
        ensures { result.now ≡ self.now }
    {
        self.item
    }
}

/// A reference to items one behind another.
#[derive(Drop)]
pub struct LentSlice<'a, T> {
    items: &'a [T],
}

impl<'a, T> Model for LentSlice<'a, T> {
    ghost use Rattle.std.specs.Prelude.{List};
    ghost use Rattle.std.specs.Coded.{coded_list};

    ghost Value = { List T };

    ghost coded = { coded_list T.code };

    ghost view = { λ lent. lent.items.now };
}

impl<'a, T> LentSlice<'a, T> {
    /// A reference to these items.
    pub fn new(items: &'a [T]) -> LentSlice<'a, T>
        ensures { result ≡ items.now }
    {
        LentSlice { items }
    }

    /// The items that it refers to.
    pub fn get(&self) -> &'a [T]
        ensures { result.now ≡ self.now }
    {
        self.items
    }
}
