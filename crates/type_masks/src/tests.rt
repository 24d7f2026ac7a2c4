use crate::Mask;
use std::test::Fail;

#[test]
fn nine_kinds_of_a_large_bound(rt: HostRuntime) -> Result<(), Fail> {
    let mut mask = Mask::new(rt.alloc(), 4_096);
    for i in 0..9 {
        assert!(rt; mask.bound() == 4_096);
        assert!(rt; mask.add(4_095 - 7 * i)?);
    }
    assert!(rt; mask.bound() == 4_096);
    assert!(rt; !mask.add(4_088)?);
    let mut other = Mask::new(rt.alloc(), 4_096);
    assert!(rt; other.bound() == 4_096);
    assert!(rt; other.add(17)?);
    assert_eq!(rt; other.only(), Some(17));
    assert!(rt; mask.union_into(&mut other)?);
    assert!(rt; mask.is_sub(&other));
    assert!(rt; !other.is_sub(&mask));
    let mut kinds = other.iter();
    assert_eq!(rt; kinds.next(), Some(17));
    assert_eq!(rt; kinds.next(), Some(4_039));
    assert_eq!(rt; kinds.next(), Some(4_046));
    assert_eq!(rt; kinds.count(), 7);
    assert!(rt; other.copy()?.is_same(&other));
    assert_eq!(rt; other.only(), None);
    Ok(())
}
