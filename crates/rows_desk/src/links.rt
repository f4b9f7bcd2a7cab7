//! Connections that fail, and one over a stream.

use ckd_image::{Bytes, NoMemory};
use dasd_pool::{Link, MemoryLink, StreamLink, send_all};
use rows_standing::{End, Standing};
use std::alloc::Global;
use std::io;
use std::test::*;

const POST_ONE: &[u8] = b"POST /jobs/K1 HTTP/1.1\r\ncontent-length: 12\r\n\r\n{\"sysin\":\"\"}";

/// Serves a request over a link with so much room at which these calls fail: the status that was answered, and what was sent.
fn served(
    alloc: Global,
    standing: Standing,
    room: u32,
    failing: &[u64],
) -> Result<(Standing, Option<u16>, Vec<u8>), NoMemory> {
    let input = Bytes::from_slice(alloc, POST_ONE)?;
    let mut link = MemoryLink::new(alloc, input, room, Vec::from_slice(alloc, failing)?)?;
    let (standing, answer) = standing.serve(alloc, &mut link);
    let sent = link.text().to_vec(alloc)?;
    Ok((standing, answer, sent))
}

#[test]
fn a_failed_receive_changes_nothing(rt: HostRuntime) -> Result<(), Fail> {
    let standing = Standing::new(rt.alloc(), &[])?;
    let (standing, answer, sent) = served(rt.alloc(), standing, 500, &[0])?;
    assert_eq!(rt; answer, None);
    assert!(rt; sent.is_empty());
    let (_, answer, _) = served(rt.alloc(), standing, 500, &[])?;
    assert_eq!(rt; answer, Some(201), "the job wasn't there");
    Ok(())
}

#[test]
fn a_failed_send_keeps_what_was_done(rt: HostRuntime) -> Result<(), Fail> {
    let standing = Standing::new(rt.alloc(), &[])?;
    let (standing, answer, sent) = served(rt.alloc(), standing, 20, &[])?;
    assert_eq!(rt; answer, None);
    assert_eq!(rt; sent.as_slice(), b"HTTP/1.1 201 Created".as_slice());
    let (standing, answer, sent) = served(rt.alloc(), standing, 500, &[1])?;
    assert_eq!(rt; answer, None);
    assert!(rt; sent.is_empty());
    let (_, answer, _) = served(rt.alloc(), standing, 500, &[])?;
    assert_eq!(rt; answer, Some(200), "the job was there");
    Ok(())
}

/// A stream in memory, whose first call is interrupted, and which takes three bytes at a time and no more than six.
#[derive(Debug, Drop)]
struct Pipe {
    given: Vec<u8>,
    taken: Vec<u8>,
    calls: u32,
}

impl io::Read for Pipe {
    fn read(&mut self, buf: &mut [u8]) -> io::Result<usize> {
        self.calls = self.calls.saturating_add(1);
        if self.calls == 1 {
            return Err(io::Error::from(io::ErrorKind::Interrupted));
        }
        let count = self.given.len().min(buf.len());
        buf[..count].copy_from_slice(&self.given[..count]);
        self.given.clear();
        Ok(count)
    }
}

impl io::Write for Pipe {
    fn write(&mut self, piece: &[u8]) -> io::Result<usize> {
        let count = piece
            .len()
            .min(3)
            .min(6usize.saturating_sub(self.taken.len()));
        self.taken.extend_from_slice(&piece[..count])?;
        Ok(count)
    }

    fn flush(&mut self) -> io::Result<()> {
        Ok(())
    }
}

#[test]
fn a_stream_is_a_link(rt: HostRuntime) -> Result<(), Fail> {
    let mut link = StreamLink::new(Pipe {
        given: Vec::from_slice(rt.alloc(), b"free")?,
        taken: Vec::new(rt.alloc()),
        calls: 0,
    });
    let mut buf = [0; 8];
    assert_eq!(rt; link.receive(&mut buf), Ok(4));
    assert_eq!(rt; link.receive(&mut buf), Ok(0));
    assert!(rt; send_all(&mut link, b"tracks").is_ok());
    assert!(rt; send_all(&mut link, b"s").is_err(), "no room");
    let pipe = link.into_stream();
    assert_eq!(rt; pipe.taken.as_slice(), b"tracks".as_slice());
    Ok(())
}

#[test]
fn a_run_is_kept_though_its_answer_is_lost(rt: HostRuntime) -> Result<(), Fail> {
    let alloc = rt.alloc();
    let standing = Standing::new(alloc, &[End::Broken, End::Done])?;
    let (standing, _, _) = served(alloc, standing, 500, &[])?;
    let run = b"POST /jobs/K1/run HTTP/1.1\r\n\r\n";
    let mut lost = MemoryLink::new(alloc, Bytes::from_slice(alloc, run)?, 0, Vec::new(alloc))?;
    let (standing, answer) = standing.serve(alloc, &mut lost);
    assert_eq!(rt; answer, None);
    let mut link = MemoryLink::new(alloc, Bytes::from_slice(alloc, run)?, 500, Vec::new(alloc))?;
    let (_, answer) = standing.serve(alloc, &mut link);
    assert_eq!(rt; answer, Some(200));
    Ok(())
}
