use crate::Links;
use std::test::Fail;

#[test]
fn takes_nodes_out_of_the_middle(rt: HostRuntime) -> Result<(), Fail> {
    let mut links = Links::new(rt.alloc(), 5, 2)?;
    links.push_back(0, 3);
    links.push_back(0, 1);
    links.push_back(0, 4);
    links.push_back(1, 2);
    assert_eq!(rt; links.list_of(4), Some(0));
    assert_eq!(rt; links.list_of(0), None);
    assert_eq!(rt; links.first(0), Some(3));
    assert_eq!(rt; links.next(3), Some(1));
    links.remove(1);
    assert_eq!(rt; links.next(3), Some(4));
    assert_eq!(rt; links.next(4), None);
    assert_eq!(rt; links.list_of(1), None);
    assert_eq!(rt; links.pop_front(0), Some(3));
    assert_eq!(rt; links.pop_front(0), Some(4));
    assert_eq!(rt; links.pop_front(0), None);
    assert_eq!(rt; links.first(1), Some(2));
    Ok(())
}
