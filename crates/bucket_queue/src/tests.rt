//! Keys that are taken out in order.
ghost use Rattle.std.specs.Prelude.{◌≡◌};

use crate::Buckets;
use std::process::Abort;
use std::test::Fail;

/// Takes a pair out and checks it.
fn expect(rt: &impl Abort, bag: &mut Buckets<u8>, key: u64, item: u8)
    ensures { bag.new.floor ≡ key }
{
    match bag.pop() {
        Some((least, first)) => {
            assert_eq!(rt; least, key);
            assert_eq!(rt; first, item);
        }
        None => panic!(rt; "the bag is empty"),
    }
}

#[test]
fn keys_come_in_order(rt: HostRuntime) -> Result<(), Fail> {
    let mut bag = Buckets::new(rt.alloc());
    bag.push(7, 1)?;
    bag.push(3, 2)?;
    bag.push(3, 2)?;
    bag.push(9, 3)?;
    expect(&rt, &mut bag, 3, 2);
    expect(&rt, &mut bag, 3, 2);
    expect(&rt, &mut bag, 7, 1);
    bag.push(7, 4)?;
    expect(&rt, &mut bag, 7, 4);
    expect(&rt, &mut bag, 9, 3);
    assert!(rt; bag.pop().is_none());
    Ok(())
}

#[test]
fn a_cleared_bag_begins_anew(rt: HostRuntime) -> Result<(), Fail> {
    let mut bag = Buckets::new(rt.alloc());
    bag.push(1 << 63, 1)?;
    bag.push(5, 2)?;
    expect(&rt, &mut bag, 5, 2);
    bag.clear();
    bag.push(2, 3)?;
    expect(&rt, &mut bag, 2, 3);
    assert!(rt; bag.pop().is_none());
    Ok(())
}
