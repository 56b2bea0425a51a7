//! The port of a service's staff, where it is asked what it has counted, and corrections are sent.

use std::alloc::Global;
use std::io;
use std::io::{ErrorKind, Read, Write};
use std::net::{Ipv4Addr, Net, SocketAddr, SocketAddrV4, TcpStream};
use std::time::Duration;

/// For how many seconds a service may say nothing to a correction: it says `NO 52 Late` after ten.
pub(crate) const UNTIL_LATE: u64 = 12;

/// And for how many where it is asked what it has counted: it waits for nothing.
pub(crate) const AT_ONCE: u64 = 4;

/// How many bytes are read at a time.
const PIECE: usize = 512;

/// How often is read, at most, until a reply is whole.
const MOST_READS: u32 = 8;

/// The port for the staff of a service.
#[derive(Drop)]
pub struct StaffPort {
    /// The port of 127.0.0.1.
    pub port: u16,
    /// The line with which a connection has to begin, if the service greets so.
    pub greeting: Option<String>,
}

/// Sends a line, which ends with its newline, and gives the line that comes back, without its newline.
pub(crate) fn ask<R: Net<Stream = TcpStream>>(
    rt: &R,
    alloc: Global,
    service: &StaffPort,
    line: &[u8],
    seconds: u64,
) -> io::Result<String> {
    let address = SocketAddr::V4(SocketAddrV4::new(Ipv4Addr::LOCALHOST, service.port));
    let silence = Duration::from_secs(seconds);
    let mut stream = TcpStream::connect_timeout(rt, &address, silence)?;
    stream.set_read_timeout(Some(silence))?;
    stream.set_write_timeout(Some(silence))?;
    if let Some(greeting) = &service.greeting {
        stream.write_all(greeting.as_str().as_bytes())?;
        stream.write_all(b"\n")?;
    }
    stream.write_all(line)?;
    first_line(alloc, &mut stream)
}

/// The first line that is read.
fn first_line<S: Read>(alloc: Global, stream: &mut S) -> io::Result<String> {
    let mut reply = Vec::new(alloc);
    let mut piece = [0; PIECE];
    for _ in 0..MOST_READS {
        let count = stream.read(&mut piece)?;
        let read = &piece[..count];
        match read.iter().position(|byte| *byte == b'\n') {
            Some(end) => {
                reply.extend_from_slice(&read[..end])?;
                return text_of(reply);
            }
            None if count == 0 => return Err(io::Error::from(ErrorKind::UnexpectedEof)),
            None => reply.extend_from_slice(read)?,
        }
    }
    Err(io::Error::from(ErrorKind::InvalidData))
}

fn text_of(bytes: Vec<u8>) -> io::Result<String> {
    match String::from_utf8(bytes) {
        Ok(text) => Ok(text),
        Err(_) => Err(io::Error::from(ErrorKind::InvalidData)),
    }
}
