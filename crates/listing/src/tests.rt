//! What is written where the expected output does not look: the sheet of the sample ends inside a command.
use crate::listed::list_stream;
use std::test::Fail;

#[test]
fn a_sheet_is_listed_to_its_end(rt: HostRuntime) -> Result<(), Fail> {
    let mut out = Vec::new(rt.alloc());
    let mut sheet: &[u8] = b"\x52\x01\x53\x56";
    list_stream(rt.alloc(), &mut sheet, &mut out)?;
    assert_eq!(rt; out.as_slice(), b"0 Raise\n2 Settle\n3 Void\n".as_slice());
    Ok(())
}
