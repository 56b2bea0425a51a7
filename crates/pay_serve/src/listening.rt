//! The ports of the lanes.
ghost use Rattle.std.specs.Prelude.{◌≡◌, ◌+◌, ◌<◌, ◌⊎◌, length, IfOk, IfErr, OnErr};
ghost use Rattle.std.specs.Net.Socket.{socket_ip, socket_port};
ghost use Rattle.pay_serve.specs.Addresses.{IsThisHost};

use crate::fault::ServeFault;
use crate::plan::Plan;
use std::alloc::Global;
use std::net::{IpAddr, Ipv4Addr, Net, SocketAddr, TcpListener};

/// The port of a lane, if there is one of that number.
fn port_of(plan: &Plan, lane: u8) -> Result<u16, ServeFault>
    ensures port { IfOk result (λ port. port ≡ plan.now.port + lane) }
    ensures refused { OnErr result (u16.MAX < plan.now.port + lane) }
    ensures fault { IfErr result (λ fault. fault ≡ ServeFault.CannotListen) }
{
    match plan.port.checked_add(u16::from(lane)) {
        Some(port) => Ok(port),
        None => Err(ServeFault::CannotListen),
    }
}

/// Where a port of this host alone is, 127.0.0.1.
fn address_of(port: u16) -> SocketAddr
    ensures host { IsThisHost (socket_ip result) }
    ensures port { socket_port result ≡ port }
{
    SocketAddr::new(IpAddr::V4(Ipv4Addr::LOCALHOST), port)
}

/// Listens at an address of this host alone.
fn listen_at<R: Net>(rt: &R, address: SocketAddr) -> Result<R::Listener, ServeFault>
    requires { IsThisHost (socket_ip address) }
    ensures { IfErr result (λ fault. fault ≡ ServeFault.CannotListen) }
{
    match TcpListener::bind(rt, address) {
        Ok(listener) => Ok(listener),
        Err(_) => Err(ServeFault::CannotListen),
    }
}

/// Listens on a port of this host alone.
pub fn listen_on<R: Net>(rt: &R, port: u16) -> Result<R::Listener, ServeFault>
    ensures { IfErr result (λ fault. fault ≡ ServeFault.CannotListen) }
{
    listen_at(rt, address_of(port))
}

/// Listens on a port of this host for each lane, in order. Where one is not to be had, none is kept.
pub fn listen<R: Net>(rt: &R, alloc: Global, plan: &Plan) -> Result<Vec<R::Listener>, ServeFault>
    ensures count { IfOk result (λ listeners. length listeners.items ≡ plan.now.lanes) }
    ensures fault { IfErr result (λ fault. (fault ≡ ServeFault.CannotListen) ⊎ (fault ≡ ServeFault.Memory)) }
{
    let mut listeners = Vec::with_capacity(alloc, plan.lanes as usize)?;
    for lane in 0..plan.lanes {
        let listener = listen_on(rt, port_of(plan, lane)?)?;
        listeners.push_reserved(listener);
    }
    Ok(listeners)
}
