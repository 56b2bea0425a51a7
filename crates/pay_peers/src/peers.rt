//! The connections of a lane.

use crate::limits::MOST_PEERS;
use crate::peer::Peer;
use std::alloc::{AllocError, Global};
use std::collections::VecDeque;

/// The connections that a lane holds, each at the place of its number, and the places of those that have a turn to come.
#[derive(Drop)]
pub struct Peers {
    all: Vec<Option<Peer>>,
    // The places of those that are over. One that there is no memory to keep is not used again.
    free: Vec<usize>,
    queue: VecDeque<usize>,
}

impl Peers {
    /// None.
    pub fn new(alloc: Global) -> Result<Peers, AllocError> {
        Ok(Peers {
            all: Vec::new(alloc),
            free: Vec::new(alloc),
            queue: VecDeque::with_capacity(alloc, MOST_PEERS)?,
        })
    }

    /// How many places there are.
    pub fn len(&self) -> usize {
        self.all.len()
    }

    /// The place of the next connection.
    pub fn next_place(&self) -> usize {
        match self.free.last() {
            Some(place) => *place,
            None => self.all.len(),
        }
    }

    /// Holds a connection at the next place.
    pub fn hold(&mut self, peer: Peer) -> Option<()> {
        let Some(place) = self.free.pop() else {
            return self.all.push(Some(peer)).ok();
        };
        *self.all.get_mut(place)? = Some(peer);
        Some(())
    }

    /// The connection at a place.
    pub fn at(&mut self, place: usize) -> Option<&mut Peer> {
        self.all.get_mut(place)?.as_mut()
    }

    /// Lets the connection at a place go.
    pub fn let_go(&mut self, place: usize) {
        if let Some(held) = self.all.get_mut(place) {
            *held = None;
            let _ = self.free.push(place);
        }
    }

    /// How many have a turn to come.
    pub fn queued(&self) -> usize {
        self.queue.len()
    }

    /// The connection at a place has a turn to come, and no more than one.
    pub fn queue(&mut self, place: usize) {
        let Some(peer) = self.at(place) else {
            return;
        };
        if peer.queued {
            return;
        }
        peer.queued = true;
        if self.queue.push_back(place).is_err() {
            self.let_go(place);
        }
    }

    /// The place of the connection that has the next turn.
    pub fn next(&mut self) -> Option<usize> {
        let place = self.queue.pop_front()?;
        self.at(place)?.queued = false;
        Some(place)
    }
}
