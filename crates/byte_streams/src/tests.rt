// The words by which a program says what failed.
use crate::error::StreamError;
use std::io;
use std::io::ErrorKind;
use std::test::Fail;

#[test]
fn each_error_says_what_failed(rt: HostRuntime) -> Result<(), Fail> {
    let error = StreamError::Reading(io::Error::from(ErrorKind::NotFound));
    let reading = error.to_string(rt.alloc())?;
    assert!(rt; reading.as_str().starts_with("reading failed: "));
    let error = StreamError::Writing(io::Error::from(ErrorKind::WriteZero));
    let writing = error.to_string(rt.alloc())?;
    assert!(rt; writing.as_str().starts_with("writing failed: "));
    let memory = StreamError::OutOfMemory.to_string(rt.alloc())?;
    assert_eq!(rt; memory.as_str(), "out of memory");
    Ok(())
}
