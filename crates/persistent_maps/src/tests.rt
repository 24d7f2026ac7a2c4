use crate::{Map, Maps};
use std::test::Fail;

#[test]
fn old_maps_stay(rt: HostRuntime) -> Result<(), Fail> {
    let mut maps = Maps::new(rt.alloc(), 3);
    let first = maps.with(Map::empty(), 5, 50)?;
    let second = maps.with(first, 1, 10)?;
    let third = maps.with(second, 5, 51)?;
    for (map, at_one, at_five) in [
        (Map::empty(), None, None),
        (first, None, Some(50)),
        (second, Some(10), Some(50)),
        (third, Some(10), Some(51)),
    ] {
        assert_eq!(rt; maps.get(map, 1), at_one);
        assert_eq!(rt; maps.get(map, 5), at_five);
        assert_eq!(rt; maps.get(map, 4), None);
        assert_eq!(rt; maps.get(map, 13), None, "not of three bits");
    }
    Ok(())
}

#[test]
fn all_keys_below_a_count_are_keys(rt: HostRuntime) -> Result<(), Fail> {
    let mut maps = Maps::for_keys(rt.alloc(), 1000);
    let first = maps.with(Map::empty(), 0, 7)?;
    let second = maps.with(first, 999, 8)?;
    assert_eq!(rt; maps.get(second, 0), Some(7));
    assert_eq!(rt; maps.get(second, 999), Some(8));
    assert_eq!(rt; maps.get(second, 500), None);
    assert_eq!(rt; maps.get(first, 999), None);
    Ok(())
}

#[test]
fn the_left_map_wins(rt: HostRuntime) -> Result<(), Fail> {
    let mut maps = Maps::new(rt.alloc(), 3);
    let one = maps.with(Map::empty(), 1, 10)?;
    let left = maps.with(one, 5, 50)?;
    let right = maps.with(one, 5, 51)?;
    let right = maps.with(right, 6, 60)?;
    let both = maps.union(left, right)?;
    assert_eq!(rt; maps.get(both, 1), Some(10));
    assert_eq!(rt; maps.get(both, 5), Some(50));
    assert_eq!(rt; maps.get(both, 6), Some(60));
    assert_eq!(rt; maps.get(both, 2), None);
    Ok(())
}
