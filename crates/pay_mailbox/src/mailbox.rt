//! The mailbox, its receiver and its senders.
ghost use Rattle.std.specs.Prelude.{◌≡◌, ◌<◌, ◌≤◌, ◌+◌, ◌++◌, [], ◌∷◌, List, vec_len, vec_capacity, IfOk, OnOk, IfErr, OnErr, IfSome, IfNone};
ghost use Rattle.pay_mailbox.specs.Parts.{sender_of, receiver_of, having_sent, having_got, having_made, having_back, AreAllBack, WasFull, HasAll, HasFirst, HasWaiting};

use crate::rule::{Gets, InOrder, Makes, Returns, Sends, View};
use crate::senders::Senders;
use crossbeam_queue::{Pass, RuledArrayQueue};
use std::alloc::{AllocError, Global};
use std::marker::Model;
use std::sync::Wait;
use std::thread::Parker;
use std::time::Duration;

type Queue<T, S> = RuledArrayQueue<T, View<T>, InOrder<S>>;

/// A mailbox, which threads share by `&` or in an `Arc`. In a contract it is which one it is, and how many items it
/// holds at most.
#[derive(Drop)]
pub struct Mailbox<T, S: Senders<T>> {
    queue: Queue<T, S>,
    // Wakes the receiver.
    bell: Parker,
}

impl<T, S: Senders<T>> Model for Mailbox<T, S> {
    ghost use Rattle.std.specs.Prelude.{◌≡◌};
    ghost use Rattle.crossbeam_queue.specs.Passes.{ruled_capacity};
    ghost use Rattle.pay_mailbox.specs.Parts.{MailboxParts, mailbox_code};
    ghost use Rattle.pay_mailbox.specs.Seen.{seen_mailbox};

    ghost Value = { MailboxParts };

    ghost coded = { mailbox_code };

    ghost view = { λ m. seen_mailbox m.queue.table.shared.table_id };

    ghost invariant = { λ m. m.queue.table.shared.table_id.slots ≡ ruled_capacity m.queue };
}

/// The one that receives from a mailbox. In a contract it has what it got, how many senders it has made, and what
/// those sent that are back.
#[derive(Drop)]
pub struct Receiver<T> {
    pass: Pass<T, View<T>>,
}

impl<T> Model for Receiver<T> {
    ghost use Rattle.pay_mailbox.specs.Parts.{ReceiverParts, receiver_code};

    ghost Value = { ReceiverParts T };

    ghost coded = { receiver_code T.code };

    ghost use Rattle.pay_mailbox.specs.Seen.{seen_receiver, IsReceiving};

    ghost view = { λ r. seen_receiver r.pass };

    ghost invariant = { λ r. IsReceiving r.pass };
}

/// One that sends to a mailbox, in one thread at a time. In a contract it has its number and what it has sent.
#[derive(Drop)]
pub struct Sender<T> {
    pass: Pass<T, View<T>>,
}

impl<T> Model for Sender<T> {
    ghost use Rattle.pay_mailbox.specs.Parts.{SenderParts, sender_code};

    ghost Value = { SenderParts T };

    ghost coded = { sender_code T.code };

    ghost use Rattle.pay_mailbox.specs.Seen.{seen_sender, IsSending};

    ghost view = { λ s. seen_sender s.pass };

    ghost invariant = { λ s. IsSending s.pass };
}

impl<T, S: Senders<T>> Mailbox<T, S> {
    /// An empty mailbox for at most `capacity` items, and its receiver. `Err` is want of memory.
    pub fn open(alloc: Global, capacity: usize) -> Result<(Mailbox<T, S>, Receiver<T>), AllocError>
        requires { 0 < capacity }
        ensures capacity { IfOk result (λ made. made.0.capacity ≡ capacity) }
        ensures receiver { IfOk result (λ made. made.1 ≡ receiver_of made.0) }
    {
        let (queue, pass) = Queue::<T, S>::ruled(alloc, capacity)?;
        let bell = Parker::new();
        Ok((Mailbox { queue, bell }, Receiver { pass }))
    }

    /// The next sender: the first has the number 0, the second 1, and so on.
    pub fn sender(&self, receiver: &mut Receiver<T>) -> Sender<T>
        requires { receiver.old.mailbox ≡ self.now }
        ensures receiver { receiver.new ≡ having_made receiver.old }
        ensures sender { result ≡ sender_of self.now receiver.old.made [] }
    {
        let pass = self.queue.another::<Makes>(&mut receiver.pass);
        Sender { pass }
    }

    /// Sends an item. It comes back only if the mailbox was full at one moment of the call.
    pub fn send<R: Wait>(&self, rt: &R, sender: &mut Sender<T>, item: T) -> Result<(), T>
        requires mailbox { sender.old.mailbox ≡ self.now }
        requires own { S.sender item ≡ sender.old.number }
        ensures sent { OnOk result (sender.new ≡ having_sent sender.old item) }
        ensures refused { IfErr result (λ back. (back ≡ item) × (sender.new ≡ sender.old)) }
        ensures full { OnErr result (WasFull S.sender sender.old) }
    {
        let sent = self
            .queue
            .push_as::<Sends<S>, R>(rt, &mut sender.pass, item);
        if sent.is_ok() {
            self.bell.unpark();
        }
        sent
    }

    /// The oldest item, or `None` if the mailbox was empty at one moment of the call. Of each sender that was back
    /// before, all was got by then.
    pub fn receive<R: Wait>(&self, rt: &R, receiver: &mut Receiver<T>) -> Option<T>
        requires { receiver.old.mailbox ≡ self.now }
        ensures got { IfSome result (λ item. receiver.new ≡ having_got receiver.old (item ∷ [])) }
        ensures made { IfSome result (λ item. S.sender item < receiver.old.made) }
        ensures none { IfNone result (receiver.new ≡ receiver.old) }
        ensures all { IfNone result (HasAll S.sender receiver.old) }
    {
        self.queue.pop_as::<Gets<S>, R>(rt, &mut receiver.pass)
    }

    /// Waits until an item is sent, and not at all if one was sent since the receiver last waited. It waits no longer than
    /// `longest`, and may end sooner. Only the receiver's thread may wait.
    pub fn wait<R: Wait>(&self, rt: &R, longest: Duration) {
        self.bell.park_timeout(rt, longest);
    }

    /// How many items the mailbox held at one moment of the call.
    pub fn waiting<R: Wait>(&self, rt: &R, receiver: &mut Receiver<T>) -> usize
        requires { receiver.old.mailbox ≡ self.now }
        ensures same { receiver.new ≡ receiver.old }
        ensures few { result ≤ receiver.old.mailbox.capacity }
        ensures held { HasWaiting S.sender result receiver.old }
    {
        self.queue.len_as::<Gets<S>, R>(rt, &mut receiver.pass)
    }

    /// Receives all that is left once all senders are back, and puts it into `rest`, which has room for as many items
    /// as the mailbox holds at most.
    pub fn receive_rest<R: Wait>(&self, rt: &R, receiver: &mut Receiver<T>, rest: &mut Vec<T>)
        requires mailbox { receiver.old.mailbox ≡ self.now }
        requires back { AreAllBack receiver.old }
        requires room { vec_len rest.old + receiver.old.mailbox.capacity ≤ vec_capacity rest.old }
        ensures got { (items : List T) × (rest.new.items ≡ rest.old.items ++ items) × (receiver.new ≡ having_got receiver.old items) }
        ensures all { HasAll S.sender receiver.new }
    {
        for _ in 0..self.waiting(rt, receiver) {
            match self.receive(rt, receiver) {
                Some(item) => rest.push_reserved(item),
                None => return,
            }
        }
        // As many were got as were left, and of each sender the first of what it sent: so it is all.
        self.compare(receiver);
    }

    /// Takes a sender back, with what it sent.
    pub fn rejoin(&self, receiver: &mut Receiver<T>, sender: Sender<T>)
        requires receiver { receiver.old.mailbox ≡ self.now }
        requires sender { sender.mailbox ≡ self.now }
        ensures { receiver.new ≡ having_back receiver.old sender }
    {
        self.queue
            .absorb::<Returns>(&mut receiver.pass, sender.pass);
    }

    /// What was got of each sender that is back is the first of what it sent, in its order.
    pub fn compare(&self, receiver: &mut Receiver<T>)
        requires { receiver.old.mailbox ≡ self.now }
        ensures same { receiver.new ≡ receiver.old }
        ensures first { HasFirst S.sender receiver.old }
    {
        self.queue.learn_as::<Gets<S>>(&mut receiver.pass);
    }
}
