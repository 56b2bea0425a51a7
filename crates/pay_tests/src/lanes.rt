//! The tests of lanes and workers, and of offices and desks: what is sent is answered, whatever the threads do.

mod desks;
mod gates;
mod given;
mod memory;
mod offices;
mod threads;
mod waiting;
