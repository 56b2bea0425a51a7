//! The rule of a mailbox: what it holds, and what each pass knows.
ghost use Rattle.std.specs.Prelude.{◌≡◌, true, false, [], ◌∷◌, ◌++◌};

use crate::senders::Senders;
use crossbeam_queue::protocol::{Join, Lesson, Outcome, Protocol, Split};
use std::collections::LinkedList;
use std::marker::PhantomData;

/// What a sender sent, which is back. No value of it is made.
pub struct Back<T> {
    pub number: u64,
    pub sent: LinkedList<T>,
}

/// What a pass knows: whether it sends or receives, what it sent as which sender, what it got, how many senders it
/// has made, and what those sent that are back. No value of it is made.
pub struct View<T> {
    pub sends: bool,
    pub receives: bool,
    pub number: u64,
    pub sent: LinkedList<T>,
    pub got: LinkedList<T>,
    pub made: u64,
    pub back: LinkedList<Back<T>>,
}

/// The rule.
pub struct InOrder<S> {
    senders: PhantomData<S>,
}

impl<T, S: Senders<T>> Protocol<T, View<T>> for InOrder<S> {
    ghost use Rattle.std.specs.Prelude.{[]};
    ghost use Rattle.pay_mailbox.specs.Rules.{Delivers, receiving};

    ghost holds = { Delivers S.sender };

    ghost first = { receiving [] 0 [] };
}

/// A receiver makes a sender.
pub struct Makes;

impl<T> Split<View<T>> for Makes {
    ghost use Rattle.std.specs.Prelude.{[], ◌+◌};
    ghost use Rattle.pay_mailbox.specs.Rules.{receiving, sending};

    ghost left = { λ v. receiving v.got (v.made + 1) v.back };

    ghost right = { λ v. sending v.made [] };
}

/// A receiver takes a sender back.
pub struct Returns;

impl<T> Join<View<T>> for Returns {
    ghost use Rattle.std.specs.Prelude.{[], ◌∷◌, ◌++◌};
    ghost use Rattle.pay_mailbox.specs.Rules.{receiving, spent, back};

    ghost both = { λ v w. receiving v.got v.made (v.back ++ back w.number w.sent ∷ []) };

    ghost spent = { spent };
}

/// A sender sends an item.
pub struct Sends<S> {
    senders: PhantomData<S>,
}

impl<T, S> Outcome<T, View<T>> for Sends<S> {
    ghost use Rattle.std.specs.Prelude.{◌≡◌, [], ◌∷◌, ◌++◌};
    ghost use Rattle.pay_mailbox.specs.Rules.{sending};

    ghost then = { λ v x w. w ≡ sending v.number (v.sent ++ x ∷ []) };
}

impl<T, S: Senders<T>> Lesson<T, View<T>> for Sends<S> {
    ghost use Rattle.pay_mailbox.specs.Rules.{HasSent};

    ghost fact = { HasSent S.sender };
}

/// A receiver gets an item.
pub struct Gets<S> {
    senders: PhantomData<S>,
}

impl<T, S: Senders<T>> Outcome<T, View<T>> for Gets<S> {
    ghost use Rattle.std.specs.Prelude.{◌≡◌, ◌<◌, [], ◌∷◌, ◌++◌};
    ghost use Rattle.pay_mailbox.specs.Rules.{receiving};

    ghost then = { λ v x w. (S.sender x < v.made) × (w ≡ receiving (v.got ++ x ∷ []) v.made v.back) };
}

impl<T, S: Senders<T>> Lesson<T, View<T>> for Gets<S> {
    ghost use Rattle.pay_mailbox.specs.Rules.{HasGot};

    ghost fact = { HasGot S.sender };
}
