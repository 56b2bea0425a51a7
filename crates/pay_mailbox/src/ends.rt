//! Both ends of a mailbox that they own together, for threads that are spawned.
ghost use Rattle.std.specs.Prelude.{◌≡◌, ◌<◌, ◌≤◌, ◌+◌, ◌++◌, ◌∷◌, [], List, vec_len, vec_capacity, IfOk, OnOk, IfErr, OnErr, IfSome, IfNone};
ghost use Rattle.pay_mailbox.specs.Parts.{receiver_of, sender_of, having_sent, having_got, having_made, having_back, AreAllBack, WasFull, HasAll, HasFirst, HasWaiting};

use crate::mailbox::{Mailbox, Receiver, Sender};
use crate::senders::Senders;
use std::alloc::{AllocError, Global};
use std::marker::Model;
use std::sync::{Arc, Wait};
use std::time::Duration;

/// The receiving end of a mailbox. In a contract it is the receiver.
#[derive(Drop)]
pub struct Inbox<T, S: Senders<T>> {
    mailbox: Arc<Mailbox<T, S>>,
    receiver: Receiver<T>,
}

impl<T, S: Senders<T>> Model for Inbox<T, S> {
    ghost use Rattle.std.specs.Prelude.{◌≡◌};
    ghost use Rattle.std.specs.Arc.{arc_value};
    ghost use Rattle.pay_mailbox.specs.Parts.{ReceiverParts, receiver_code};

    ghost Value = { ReceiverParts T };

    ghost coded = { receiver_code T.code };

    ghost view = { λ i. i.receiver };

    ghost invariant = { λ i. i.receiver.mailbox ≡ arc_value i.mailbox };
}

/// A sending end of a mailbox. In a contract it is its sender.
#[derive(Drop)]
pub struct Outbox<T, S: Senders<T>> {
    mailbox: Arc<Mailbox<T, S>>,
    sender: Sender<T>,
}

impl<T, S: Senders<T>> Model for Outbox<T, S> {
    ghost use Rattle.std.specs.Prelude.{◌≡◌};
    ghost use Rattle.std.specs.Arc.{arc_value};
    ghost use Rattle.pay_mailbox.specs.Parts.{SenderParts, sender_code};

    ghost Value = { SenderParts T };

    ghost coded = { sender_code T.code };

    ghost view = { λ o. o.sender };

    ghost invariant = { λ o. o.sender.mailbox ≡ arc_value o.mailbox };
}

impl<T: Drop, S: Senders<T>> Inbox<T, S> {
    /// The receiving end of a new mailbox for at most `capacity` items. `Err` is want of memory.
    pub fn open(alloc: Global, capacity: usize) -> Result<Inbox<T, S>, AllocError>
        requires { 0 < capacity }
        ensures empty { IfOk result (λ made. made ≡ receiver_of made.mailbox) }
        ensures capacity { IfOk result (λ made. made.mailbox.capacity ≡ capacity) }
    {
        let (mailbox, receiver) = Mailbox::open(alloc, capacity)?;
        let mailbox = Arc::new(alloc, mailbox)?;
        Ok(Inbox { mailbox, receiver })
    }

    /// The next sending end: the first has the number 0, the second 1, and so on. `Err` is want of memory.
    pub fn outbox(&mut self) -> Result<Outbox<T, S>, AllocError>
        ensures sender { IfOk result (λ made. made ≡ sender_of self.old.mailbox self.old.made []) }
        ensures receiver { OnOk result (self.new ≡ having_made self.old) }
        ensures refused { OnErr result (self.new ≡ self.old) }
    {
        let mailbox = Arc::try_clone(&self.mailbox)?;
        let sender = mailbox.sender(&mut self.receiver);
        Ok(Outbox { mailbox, sender })
    }

    /// The oldest item, or `None` if the mailbox was empty at one moment of the call. Of each sender that was back
    /// before, all was got by then.
    pub fn receive<R: Wait>(&mut self, rt: &R) -> Option<T>
        ensures got { IfSome result (λ item. self.new ≡ having_got self.old (item ∷ [])) }
        ensures made { IfSome result (λ item. S.sender item < self.old.made) }
        ensures none { IfNone result (self.new ≡ self.old) }
        ensures all { IfNone result (HasAll S.sender self.old) }
    {
        self.mailbox.receive(rt, &mut self.receiver)
    }

    /// Waits until an item is sent, and not at all if one was sent since it last waited. It waits no longer than `longest`, and
    /// may end sooner.
    pub fn wait<R: Wait>(&mut self, rt: &R, longest: Duration)
        ensures { self.new ≡ self.old }
    {
        self.mailbox.wait(rt, longest);
    }

    /// How many items the mailbox held at one moment of the call.
    pub fn waiting<R: Wait>(&mut self, rt: &R) -> usize
        ensures same { self.new ≡ self.old }
        ensures few { result ≤ self.old.mailbox.capacity }
        ensures held { HasWaiting S.sender result self.old }
    {
        self.mailbox.waiting(rt, &mut self.receiver)
    }

    /// Receives all that is left once all senders are back, and puts it into `rest`, which has room for as many items
    /// as the mailbox holds at most.
    pub fn receive_rest<R: Wait>(&mut self, rt: &R, rest: &mut Vec<T>)
        requires back { AreAllBack self.old }
        requires room { vec_len rest.old + self.old.mailbox.capacity ≤ vec_capacity rest.old }
        ensures got { (items : List T) × (rest.new.items ≡ rest.old.items ++ items) × (self.new ≡ having_got self.old items) }
        ensures all { HasAll S.sender self.new }
    {
        self.mailbox.receive_rest(rt, &mut self.receiver, rest);
    }

    /// Takes a sending end of this mailbox back, with what it sent.
    pub fn rejoin(&mut self, outbox: Outbox<T, S>)
        requires { outbox.mailbox ≡ self.old.mailbox }
        ensures { self.new ≡ having_back self.old outbox }
    {
        self.mailbox.rejoin(&mut self.receiver, outbox.sender);
    }

    /// What was got of each sender that is back is the first of what it sent, in its order.
    pub fn compare(&mut self)
        ensures same { self.new ≡ self.old }
        ensures first { HasFirst S.sender self.old }
    {
        self.mailbox.compare(&mut self.receiver);
    }
}

impl<T: Drop, S: Senders<T>> Outbox<T, S> {
    /// Sends an item. It comes back only if the mailbox was full at one moment of the call.
    pub fn send<R: Wait>(&mut self, rt: &R, item: T) -> Result<(), T>
        requires { S.sender item ≡ self.old.number }
        ensures sent { OnOk result (self.new ≡ having_sent self.old item) }
        ensures refused { IfErr result (λ back. (back ≡ item) × (self.new ≡ self.old)) }
        ensures full { OnErr result (WasFull S.sender self.old) }
    {
        self.mailbox.send(rt, &mut self.sender, item)
    }
}
