//! The two sides of a connection. Replies to lines that came together leave together: the side that reads sends all that was
//! written before it asks for more, so that none waits for a line that is still to come.

use std::alloc::Global;
use std::cell::RefCell;
use std::io;
use std::io::{BufWriter, ErrorKind, Read, Write};
use std::net::TcpStream;

/// What was written on a connection and has not left.
#[derive(Drop)]
pub struct Unsent<'a> {
    writer: RefCell<BufWriter<&'a TcpStream>>,
}

impl<'a> Unsent<'a> {
    /// Nothing yet. `Err` is want of memory.
    pub fn new(alloc: Global, stream: &'a TcpStream) -> io::Result<Unsent<'a>> {
        let writer = BufWriter::new(alloc, stream)?;
        Ok(Unsent {
            writer: RefCell::new(writer),
        })
    }

    /// Sends it.
    pub fn send(&self) -> io::Result<()> {
        match self.writer.try_borrow_mut() {
            Ok(mut writer) => writer.flush(),
            Err(_) => Err(io::Error::from(ErrorKind::Other)),
        }
    }
}

/// The side that reads.
#[derive(Drop)]
pub struct ReadSide<'v, 'a> {
    pub stream: &'a TcpStream,
    pub unsent: &'v Unsent<'a>,
}

impl<'v, 'a> Read for ReadSide<'v, 'a> {
    fn read(&mut self, bytes: &mut [u8]) -> io::Result<usize> {
        self.unsent.send()?;
        self.stream.read(bytes)
    }
}

/// The side that writes.
#[derive(Drop)]
pub struct WriteSide<'v, 'a> {
    pub unsent: &'v Unsent<'a>,
}

impl<'v, 'a> Write for WriteSide<'v, 'a> {
    fn write(&mut self, bytes: &[u8]) -> io::Result<usize> {
        match self.unsent.writer.try_borrow_mut() {
            Ok(mut writer) => writer.write(bytes),
            Err(_) => Err(io::Error::from(ErrorKind::Other)),
        }
    }

    /// What was written leaves before more is read.
    fn flush(&mut self) -> io::Result<()> {
        Ok(())
    }
}
