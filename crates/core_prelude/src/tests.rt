// What no clause says: the tables by example.
use crate::tables::{native_of, root_classes, root_members};
use dart_store::Native;
use std::test::Fail;

#[test]
fn natives_are_found(rt: HostRuntime) -> Result<(), Fail> {
    assert_eq!(rt; native_of("mapKeys"), Some(Native::MapKeys));
    assert_eq!(rt; native_of("mapkeys"), None);
    Ok(())
}

#[test]
fn roots_are_listed(rt: HostRuntime) -> Result<(), Fail> {
    assert_eq!(rt; root_members().len(), 10);
    assert_eq!(rt; root_members()[9], "_loaded");
    assert_eq!(rt; root_classes().len(), 17);
    assert_eq!(rt; root_classes()[16], "NullThrownError");
    Ok(())
}
