//! Where a service is to be found.

/// Where a service is to be found on this host.
#[derive(Clone, Copy)]
pub struct Ports {
    /// The port of readers and customers.
    pub everybody: u16,
    /// The port of staff.
    pub staff: u16,
}
