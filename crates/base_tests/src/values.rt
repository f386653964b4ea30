use interner::Places;
use std::test::Fail;

#[test]
fn values_are_found_in_the_order_in_which_they_came(rt: HostRuntime) -> Result<(), Fail> {
    let mut seen = Places::new(rt.alloc());
    for value in [30, 10, 20, 10, 30, 40] {
        if seen.place(&value).is_none() {
            seen.push(value)?;
        }
    }
    assert!(rt; seen.len() == 4);
    assert!(rt; seen.place(&30) == Some(0));
    assert!(rt; seen.place(&10) == Some(1));
    assert!(rt; seen.place(&20) == Some(2));
    assert!(rt; seen.place(&40) == Some(3));
    assert!(rt; seen.place(&25).is_none());
    Ok(())
}

#[test]
fn the_last_value_gives_its_place_to_the_next(rt: HostRuntime) -> Result<(), Fail> {
    let mut seen = Places::new(rt.alloc());
    seen.push((2, 1))?;
    seen.push((1, 2))?;
    seen.take_last(&(1, 2));
    assert!(rt; seen.place(&(1, 2)).is_none());
    seen.push((3, 0))?;
    assert!(rt; seen.place(&(3, 0)) == Some(1));
    assert!(rt; seen.len() == 2);
    Ok(())
}
