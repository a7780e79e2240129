//! Lines taken from an input.
use line_source::LineSource;
use std::test::Fail;

#[test]
fn split_at_newlines(rt: HostRuntime) -> Result<(), Fail> {
    let mut input: &[u8] = b"K 2\n\nN 3\r\nS 0";
    let lines: [&[u8]; 4] = [b"K 2", b"", b"N 3\r", b"S 0"];
    let mut source = LineSource::new();
    for (line, number) in lines.into_iter().zip(1u64..) {
        assert!(rt; source.advance(&mut input)?);
        assert_eq!(rt; source.line(), line);
        assert_eq!(rt; source.number(), number);
    }
    assert!(rt; !source.advance(&mut input)?);
    Ok(())
}

#[test]
fn long_line_is_cut(rt: HostRuntime) -> Result<(), Fail> {
    let mut input: &[u8] =
        b"123456789012345678901234567890123456789012345678901234567890123456789012345678901234567890\nB 1\n";
    let mut source = LineSource::new();
    assert!(rt; source.advance(&mut input)?);
    assert_eq!(rt;
        source.line(),
        b"123456789012345678901234567890123456789012345678901234567890123456789012345678901".as_slice()
    );
    assert!(rt; source.advance(&mut input)?);
    assert_eq!(rt; source.line(), b"B 1".as_slice());
    assert!(rt; !source.advance(&mut input)?);
    Ok(())
}

#[test]
fn no_line_in_no_input(rt: HostRuntime) -> Result<(), Fail> {
    let mut input: &[u8] = b"";
    let mut source = LineSource::new();
    assert!(rt; !source.advance(&mut input)?);
    Ok(())
}
