//! Connections to the node of a log.
ghost use Rattle.std.specs.Prelude.{◌≡◌, string_bytes, IfOk};
ghost use Rattle.pay_replica.specs.Descriptions.{inbox_of};

use crate::describing::joined;
use pay_follow::LogFault;
use pay_jetstream::Client;
use std::alloc::{AllocError, Global};
use std::io;
use std::io::BufReader;
use std::net::{Ipv4Addr, Net, SocketAddr, SocketAddrV4, TcpStream};
use std::random::RandomSource;
use std::time::Duration;

/// For how many seconds a node may say nothing: it says something each second while lines are delivered.
const SILENCE: u64 = 5;

/// A connection to a node.
pub(crate) type NodeClient = Client<BufReader<TcpStream>, TcpStream>;

/// Connects to the node at a port of this machine.
pub(crate) fn connect<R: Net<Stream = TcpStream>>(
    rt: &R,
    alloc: Global,
    port: u16,
    name: &Name,
) -> Result<NodeClient, LogFault> {
    let Ok((reader, writer)) = connected(rt, alloc, port) else {
        return Err(LogFault::NotReached);
    };
    let Ok(inbox) = name.subject(alloc, ".answers") else {
        return Err(LogFault::Memory);
    };
    Client::greet(alloc, reader, writer, inbox.into_bytes())
}

/// The two sides of a connection.
fn connected<R: Net<Stream = TcpStream>>(
    rt: &R,
    alloc: Global,
    port: u16,
) -> io::Result<(BufReader<TcpStream>, TcpStream)> {
    let address = SocketAddr::V4(SocketAddrV4::new(Ipv4Addr::LOCALHOST, port));
    let silence = Duration::from_secs(SILENCE);
    let stream = TcpStream::connect_timeout(rt, &address, silence)?;
    stream.set_read_timeout(Some(silence))?;
    stream.set_write_timeout(Some(silence))?;
    stream.set_nodelay(true)?;
    let writer = stream.try_clone()?;
    Ok((BufReader::new(alloc, stream)?, writer))
}

/// The name of a connection, which nobody else has.
#[derive(Clone, Copy)]
pub(crate) struct Name {
    drawn: u64,
}

impl Name {
    /// A name that is drawn now.
    pub(crate) fn draw<R: RandomSource>(rt: &R) -> Result<Name, LogFault> {
        let mut bytes = [0; 8];
        match rt.fill_bytes(&mut bytes) {
            Ok(()) => Ok(Name {
                drawn: u64::from_le_bytes(bytes),
            }),
            Err(_) => Err(LogFault::NotReached),
        }
    }

    /// A subject of this connection alone.
    pub(crate) fn subject(self, alloc: Global, end: &str) -> Result<String, AllocError>
        ensures { IfOk result (λ text. string_bytes text ≡ inbox_of self.drawn end.now) }
    {
        joined(alloc, "_INBOX.farebox-", self.drawn, end)
    }
}
