use crate::fixed::FixedList;
use std::test::Fail;

// A list of two: both places are taken, a third item is refused, and the first item stays after a cut.
#[test]
fn two_places(rt: HostRuntime) -> Result<(), Fail> {
    let mut list: FixedList<u8, 2> = FixedList::new(0);
    assert!(rt; list.push(7).is_ok());
    assert!(rt; list.push(8).is_ok());
    assert!(rt; list.push(9).is_err());
    assert!(rt; list.as_slice()[..] == [7, 8]);
    let copy = list;
    list.cut(1);
    assert_eq!(rt; list.len(), 1);
    assert_eq!(rt; list.get(0), Some(7));
    assert_eq!(rt; list.get(1), None);
    assert_eq!(rt; copy.get(1), Some(8));
    let Ok(clone) = copy.clone() else {
        return Err(Fail::new("a copy of numbers can't fail"));
    };
    assert_eq!(rt; clone.len(), 2);
    Ok(())
}
