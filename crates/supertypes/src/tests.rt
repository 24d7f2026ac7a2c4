ghost use Rattle.std.specs.Prelude.{◌≡◌, ◌+◌, ℕ, [], ◌∷◌, Some, IfOk};
ghost use Rattle.class_heads.specs.Supertypes.{named_by, IsAbove};

use crate::supertypes::Supertypes;
use crate::upward::upward;
use class_heads::nodes::ClassNode;
use code_units::{NumberList, Text};
use sqlite_items::Items;
use std::alloc::{AllocError, Global};
use std::test::Fail;

fn class(alloc: Global, superclass: u32, interface: u32) -> Result<ClassNode, AllocError>
    ensures { IfOk result (λ class. named_by (Some class) ≡ superclass ∷ interface ∷ []) }
{
    let mut interfaces = NumberList::new(alloc);
    interfaces.push(interface)?;
    Ok(ClassNode {
        name: Text::new(alloc),
        written: None,
        file: 1,
        superclass: Some(superclass),
        mixin: None,
        interfaces,
    })
}

/// Each class extends the next one, and implements the one behind it. There are no such classes behind the last one.
#[tactic(auto, using(crate::proofs::Rising::none_rise))]
fn chain(alloc: Global, count: u16) -> Result<Items<ClassNode>, AllocError>
    ensures { IfOk result (λ classes. (c : ℕ) → IsAbove classes c c → ⊥) }
{
    let mut classes = Items::new(alloc);
    for number in 0..u32::from(count) {
        let class = class(alloc, number + 1, number + 2)?;
        classes.push(class)?;
    }
    Ok(classes)
}

#[test]
fn a_long_chain_is_climbed(rt: HostRuntime) -> Result<(), Fail> {
    let classes = chain(rt.alloc(), 50_000)?;
    let order = upward(rt.alloc(), classes.as_slice())?;
    assert_eq!(rt; order.len(), 50_000);
    let table = Supertypes::new(rt.alloc(), classes.as_slice(), order.as_slice())?;
    assert!(rt; table.is_sub(0, 49_999));
    assert!(rt; table.is_sub(49_998, 49_999));
    assert!(rt; table.is_sub(7, 7));
    assert!(rt; !table.is_sub(7, 6));
    assert!(rt; !table.is_sub(49_999, 0));
    Ok(())
}
