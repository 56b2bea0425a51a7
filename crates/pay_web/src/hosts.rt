//! By which names a browser reaches the page.
ghost use Rattle.std.specs.Prelude.{◌≡◌, IfOk};
ghost use Rattle.pay_web.specs.Gates.{IsAtPort, is_origin};
ghost use Rattle.pay_web.specs.Questions.{is_among};

use std::alloc::{AllocError, Global};

/// The values that a `Host` field may have, and an `Origin` field. Another site whose name leads to this machine has none of them.
#[derive(Drop)]
pub(crate) struct Hosts {
    /// `127.0.0.1`, a colon and the port.
    pub number: String,
    /// The same with `localhost`.
    pub name: String,
    /// `http://` and the first.
    pub number_origin: String,
    /// `http://` and the second.
    pub name_origin: String,
}

impl Hosts {
    /// Those of a port of this machine.
    pub fn of_port(alloc: Global, port: u16) -> Result<Hosts, AllocError>
        ensures { IfOk result (IsAtPort port) }
    {
        let (mut number, mut name) = (String::new(alloc), String::new(alloc));
        write!(number, "127.0.0.1:{port}")?;
        write!(name, "localhost:{port}")?;
        let (mut number_origin, mut name_origin) = (String::new(alloc), String::new(alloc));
        write!(number_origin, "http://127.0.0.1:{port}")?;
        write!(name_origin, "http://localhost:{port}")?;
        Ok(Hosts {
            number,
            name,
            number_origin,
            name_origin,
        })
    }

    /// Whether this is one of them.
    pub fn is_among(&self, host: &[u8]) -> bool
        ensures { result ≡ is_among self.now host.now }
    {
        host == self.number.as_str().as_bytes() || host == self.name.as_str().as_bytes()
    }

    /// Whether this is the origin of a page of one of them.
    pub fn is_origin(&self, origin: &[u8]) -> bool
        ensures { result ≡ is_origin self.now origin.now }
    {
        origin == self.number_origin.as_str().as_bytes()
            || origin == self.name_origin.as_str().as_bytes()
    }
}
