use super::*;
use std::test::Fail;

fn number(n: u8) -> Option<HandleNo> {
    HandleNo::try_new(n)
}

#[test]
fn fills_closes_and_opens_again(rt: HostRuntime) -> Result<(), Fail> {
    let mut handles = Handles::new();
    for n in 1..=64u8 {
        let opened = handles.open(ObjectNo::new(2 * u32::from(n)))?;
        assert_eq!(rt; opened.get(), n);
    }
    assert_eq!(rt; handles.open(ObjectNo::new(200)), Err(TableFull));
    let five = number(5).ok_or("five")?;
    assert_eq!(rt; handles.close(five), Ok(ObjectNo::new(10)));
    assert_eq!(rt; handles.close(five), Err(BadHandle));
    assert_eq!(rt; handles.get(five), None);
    assert_eq!(rt; handles.open(ObjectNo::new(6)), Ok(five));
    assert_eq!(rt; handles.get(five), Some(ObjectNo::new(6)));
    assert_eq!(rt; handles.count_of(ObjectNo::new(6)), 2);
    Ok(())
}

#[test]
fn inherits_the_listed_numbers(rt: HostRuntime) -> Result<(), Fail> {
    let mut handles = Handles::new();
    for n in 1..=9u8 {
        handles.open(ObjectNo::new(2 * u32::from(n)))?;
    }
    let seven = number(7).ok_or("seven")?;
    let three = number(3).ok_or("three")?;
    let mut list = HandleList::new();
    assert!(rt; list.len() < 40);
    list.push(seven);
    assert!(rt; list.len() < 40);
    list.push(three);
    assert!(rt; list.len() < 40);
    list.push(seven);
    let kept = handles.inherit(&list)?;
    assert_eq!(rt; kept.get(seven), Some(ObjectNo::new(14)));
    assert_eq!(rt; kept.get(three), Some(ObjectNo::new(6)));
    assert_eq!(rt; kept.get(number(1).ok_or("one")?), None);
    assert!(rt; list.len() < 40);
    list.push(number(10).ok_or("ten")?);
    assert!(rt; handles.inherit(&list).is_err());
    Ok(())
}
