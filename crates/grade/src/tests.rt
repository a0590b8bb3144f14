// Inputs of any bytes, graded to a page in memory, and a reader and a writer that fail.
use crate::streams::grade_lines;
use byte_streams::error::StreamError;
use byte_streams::sink::ToWriter;
use byte_streams::source::FromReader;
use std::io;
use std::io::{Error, ErrorKind, Read, Write};
use std::test::Fail;

// Bytes that are no UTF-8, a blank line and a mark, with the rest of the hands still graded; the last line has no line feed.
#[test]
fn every_line_is_answered(rt: HostRuntime) -> Result<(), Fail> {
    let mut input = b"\xEF\xBB\xBFas ks qs\nas ks \xFF\xFE\n \r\n9d 9c 2h | As Kd Jc".as_slice();
    let mut page = Vec::new(rt.alloc());
    assert!(rt; grade_lines(rt.alloc(), &mut input, &mut page).is_ok());
    assert_eq!(rt;
        page.as_slice(),
        b"straight flush\nrefused 12: a word is no card, or a hand has one card twice\n\npair | odd cards | first\n".as_slice()
    );
    Ok(())
}

// Two lines longer than any buffer: one word, and two hands far apart. The hand behind them is graded too.
#[test]
fn long_lines_are_answered(rt: HostRuntime) -> Result<(), Fail> {
    let word = io::repeat(b'9').take(20_000).chain(b"\nas".as_slice());
    let hands = word
        .chain(io::repeat(b' ').take(20_000))
        .chain(b"ks qs | ad kd jd\n4d 3d 2d\n".as_slice());
    let mut page = Vec::new(rt.alloc());
    assert!(rt; grade_lines(rt.alloc(), &mut FromReader(hands), &mut page).is_ok());
    assert_eq!(rt;
        page.as_slice(),
        b"refused 12: a word is no card, or a hand has one card twice\nstraight flush | flush | first\nstraight flush\n".as_slice()
    );
    Ok(())
}

// Gives its bytes one by one, and fails behind them.
#[derive(Drop)]
struct BreaksOff {
    left: &'static [u8],
}

impl Read for BreaksOff {
    fn read(&mut self, buf: &mut [u8]) -> io::Result<usize> {
        match (self.left.split_first(), buf.first_mut()) {
            (Some((byte, rest)), Some(place)) => {
                *place = *byte;
                self.left = rest;
                Ok(1)
            }
            _ => Err(Error::from(ErrorKind::UnexpectedEof)),
        }
    }
}

#[test]
fn a_failed_read_is_said(rt: HostRuntime) -> Result<(), Fail> {
    let mut page = Vec::new(rt.alloc());
    let mut source = FromReader(BreaksOff {
        left: b"as ks qs\nas",
    });
    let result = grade_lines(rt.alloc(), &mut source, &mut page);
    assert!(rt; matches!(result, Err(StreamError::Reading(_))));
    assert_eq!(rt; page.as_slice(), b"straight flush\n".as_slice());
    Ok(())
}

// Takes nothing.
#[derive(Drop)]
struct Full;

impl Write for Full {
    fn write(&mut self, _buf: &[u8]) -> io::Result<usize> {
        Err(Error::from(ErrorKind::StorageFull))
    }

    fn flush(&mut self) -> io::Result<()> {
        Ok(())
    }
}

#[test]
fn a_failed_write_is_said(rt: HostRuntime) -> Result<(), Fail> {
    let mut input = b"as ks qs\n".as_slice();
    let result = grade_lines(rt.alloc(), &mut input, &mut ToWriter(Full));
    assert!(rt; matches!(result, Err(StreamError::Writing(_))));
    Ok(())
}
