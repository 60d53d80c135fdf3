//! Guide texts that are read, and damaged ones.
use crate::{GuideError, Guides, read_guides};
use rt_base::{Point, Rect, ScanError};
use std::alloc::Global;
use std::test::Fail;

fn read(alloc: Global, text: &[u8]) -> Result<Guides, GuideError> {
    if text.len() > 100_000 {
        return Err(GuideError::Memory);
    }
    read_guides(alloc, text)
}

const TEXT: &[u8] = b"a\n(\n0 0 1000 200 M1\n-5 0 10 +7 M2\n)\nb ( )\n";

#[test]
fn guides_are_read(rt: HostRuntime) -> Result<(), Fail> {
    let guides = read_guides(rt.alloc(), TEXT)?;
    match guides.nets.as_slice() {
        [(a, boxes), (b, none)] => {
            assert!(rt; a.bytes() == b"a".as_slice() && b.bytes() == b"b".as_slice());
            assert!(rt; none.is_empty());
            match boxes.as_slice() {
                [(low, first), (high, second)] => {
                    assert!(rt;
                        low.bytes() == b"M1".as_slice() && high.bytes() == b"M2".as_slice()
                    );
                    assert_eq!(rt;
                        *first,
                        Rect::hull(Point { x: 0, y: 0 }, Point { x: 1000, y: 200 })
                    );
                    assert_eq!(rt;
                        *second,
                        Rect::hull(Point { x: -5, y: 0 }, Point { x: 10, y: 7 })
                    );
                }
                _ => assert!(rt; false),
            }
        }
        _ => assert!(rt; false),
    }
    Ok(())
}

/// The kind of an error and its line.
fn kind_of(error: &GuideError) -> (&'static str, u32) {
    match error {
        GuideError::Scan(ScanError::UnclosedQuote { line }) => ("quote", *line),
        GuideError::Scan(ScanError::NotText { line }) => ("not-text", *line),
        GuideError::Scan(ScanError::Memory) | GuideError::Memory => ("memory", 0),
        GuideError::Expected { line } => ("expected", *line),
        GuideError::Number { line } => ("number", *line),
        GuideError::EmptyBox { line } => ("empty-box", *line),
        GuideError::Twice { line, .. } => ("twice", *line),
        GuideError::Unended { line } => ("unended", *line),
    }
}

/// Damaged texts, with the kind and the line of their fault.
const DAMAGED: [(&[u8], &str, u32); 32] = [
    (b"a", "unended", 1),
    (b"\n\na\n", "unended", 3),
    (b"a (", "unended", 1),
    (b"a\n(\n", "unended", 2),
    (b"a ( 0", "unended", 1),
    (b"a ( 0 0\n5", "unended", 2),
    (b"a ( 0 0 5 9\n", "unended", 1),
    (b"a ( 0 0 5 9 M1", "unended", 1),
    (b"a ( )\nb\n# c (\n", "unended", 2),
    (b"a (\n0 0 5 9 M1\n\"x\ny\"", "number", 3),
    (b"( )", "expected", 1),
    (b"a ( )\n)", "expected", 2),
    (b"a ( ) ;", "expected", 1),
    (b"a\nb ( )", "expected", 2),
    (b"a )", "expected", 1),
    (b"\"a\" ( )", "expected", 1),
    (b"+ ( )", "expected", 1),
    (b"a (\n0 0 5 9 )\n)", "expected", 2),
    (b"a (\n0 0 5 9\n\"M1\" )", "expected", 3),
    (b"a ( x )", "number", 1),
    (b"a ( ( ) )", "number", 1),
    (b"a (\n0 M1 0 0 )", "number", 2),
    (b"a (\n0 0\n) )", "number", 3),
    (b"a ( 0.5 0 1 1 M1 )", "number", 1),
    (b"a (\n\n1073741825 0 1 1 M1 )", "number", 3),
    (b"a ( 5 0 4 9 M1 )", "empty-box", 1),
    (b"a (\n5 9\n4 8 M1 )", "empty-box", 3),
    (b"a (\n0 9 5\n8 M1 )", "empty-box", 3),
    (b"a ( 5 0 4", "empty-box", 1),
    (b"a ( )\nb ( )\na", "twice", 3),
    (b"a ( )\nb \"(\n", "quote", 2),
    (b"a ( )\n\x01", "not-text", 2),
];

#[test]
fn damaged_texts_are_refused(rt: HostRuntime) -> Result<(), Fail> {
    for (text, kind, line) in &DAMAGED {
        match read(rt.alloc(), text) {
            Ok(_) => assert!(rt; false),
            Err(error) => assert!(rt; kind_of(&error) == (*kind, *line)),
        }
    }
    Ok(())
}
