//! What is around a place, but for scopes.
ghost use Rattle.std.specs.Prelude.{◌≡◌};
ghost use Rattle.dart_sites.specs.Visits.{placed, looped, caught, functioned};

use crate::lent::Lent;
use crate::surroundings::{Owner, Within};

/// What is around a place, but for scopes.
#[derive(Drop)]
pub struct Place<'s, 'a> {
    pub class: Lent<'s, Option<Owner<'a>>>,
    pub within: Lent<'s, Within<'a>>,
    pub in_function: bool,
    pub in_loop: bool,
    pub in_catch: bool,
}

impl<'s, 'a> Place<'s, 'a> {
    /// In that part of that class, and in no function, loop or clause in it.
    pub fn new(class: &'s Option<Owner<'a>>, within: &'s Within<'a>) -> Place<'s, 'a>
        ensures { result ≡ placed class.now within.now }
    {
        Place {
            class: Lent::new(class),
            within: Lent::new(within),
            in_function: false,
            in_loop: false,
            in_catch: false,
        }
    }

    /// In a loop there.
    pub fn looped(&self) -> Place<'s, 'a>
        ensures { result ≡ looped self.now }
    {
        Place {
            class: Lent::new(self.class.get()),
            within: Lent::new(self.within.get()),
            in_function: self.in_function,
            in_loop: true,
            in_catch: self.in_catch,
        }
    }

    /// In a catch clause there.
    pub fn caught(&self) -> Place<'s, 'a>
        ensures { result ≡ caught self.now }
    {
        Place {
            class: Lent::new(self.class.get()),
            within: Lent::new(self.within.get()),
            in_function: self.in_function,
            in_loop: self.in_loop,
            in_catch: true,
        }
    }

    /// In a function literal or local function there.
    pub fn functioned(&self) -> Place<'s, 'a>
        ensures { result ≡ functioned self.now }
    {
        Place {
            class: Lent::new(self.class.get()),
            within: Lent::new(self.within.get()),
            in_function: true,
            in_loop: false,
            in_catch: false,
        }
    }
}
