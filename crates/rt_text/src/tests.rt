// Printed numbers as the readers of LEF and DEF take them, and each call once.
use super::*;
use std::test::Fail;

#[test]
fn naturals(rt: HostRuntime) -> Result<(), Fail> {
    let rows: [(u128, &[u8]); 6] = [
        (0, b"0"),
        (7, b"7"),
        (10, b"10"),
        (4294967296, b"4294967296"),
        (18446744073709551616, b"18446744073709551616"),
        (u128::MAX, b"340282366920938463463374607431768211455"),
    ];
    for (number, printed) in rows {
        let mut text = Text::new(rt.alloc());
        text.natural(number)?;
        assert_eq!(rt; text.as_slice(), printed);
    }
    Ok(())
}

#[test]
fn integers(rt: HostRuntime) -> Result<(), Fail> {
    let rows: [(i64, &[u8]); 5] = [
        (0, b"0"),
        (-1, b"-1"),
        (10, b"10"),
        (i64::MAX, b"9223372036854775807"),
        (i64::MIN, b"-9223372036854775808"),
    ];
    for (number, printed) in rows {
        let mut text = Text::new(rt.alloc());
        text.integer(number)?;
        assert_eq!(rt; text.as_slice(), printed);
    }
    Ok(())
}

#[test]
fn pieces(rt: HostRuntime) -> Result<(), Fail> {
    let mut text = Text::new(rt.alloc());
    assert!(rt; text.is_empty());
    text.bytes(b"  + ROUTED M1 ")?;
    text.point(100, -2050)?;
    text.byte(b' ')?;
    text.point(i64::MIN, i64::MAX)?;
    text.byte(b'\n')?;
    assert!(rt; !text.is_empty());
    let wanted = b"  + ROUTED M1 ( 100 -2050 ) ( -9223372036854775808 9223372036854775807 )\n";
    assert_eq!(rt; text.len(), wanted.len());
    let written = text.into_vec();
    assert_eq!(rt; written.as_slice(), wanted.as_slice());
    Ok(())
}
