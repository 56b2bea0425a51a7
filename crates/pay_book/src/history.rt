//! A book by all that came to its account.
ghost use Rattle.std.specs.Prelude.{◌≡◌, map, IfOk, OnOk};
ghost use Rattle.std.specs.List.{AllByRecursion};
ghost use Rattle.pay_rules.specs.Accepted.{nothing};
ghost use Rattle.pay_rules.specs.Changes.{after, after_all};
ghost use Rattle.pay_book.specs.History.{account_of, change_of};
ghost use Rattle.pay_book.specs.Stored.{IsConsistent, IsStored};

use crate::book::Book;
use crate::laws;
use pay_rules::{Fares, Fix, FixFault, Tap, TapFault};
use pay_tables::Editions;
use std::alloc::{AllocError, Global};

/// What comes to an account.
#[derive(Clone, Copy)]
pub enum Sent {
    /// A tap.
    Tap(Tap),
    /// A correction.
    Fix(Fix),
}

/// Hands a tap or a correction to a book, which refuses it or not. An `Err` is out of memory.
fn hand(book: &mut Book, editions: &Editions, sent: &Sent) -> Result<(), AllocError>
    requires own { account_of sent.now ≡ book.old.account }
    requires held { IsConsistent editions.now book.old }
    ensures same_account { book.new.account ≡ book.old.account }
    ensures held { IsConsistent editions.now book.new }
    ensures accepted { OnOk result (book.new.accepted ≡ after editions.now book.old.accepted (change_of sent.now)) }
{
    match sent {
        Sent::Tap(tap) => match book.tap(editions, *tap) {
            Err(TapFault::Memory) => Err(AllocError),
            _ => Ok(()),
        },
        Sent::Fix(fix) => match book.fix(editions, *fix) {
            Err(FixFault::Memory) => Err(AllocError),
            _ => Ok(()),
        },
    }
}

/// The book of an account to which these came, in this order: it has accepted what is accepted of them, and what it stores is right,
/// whatever their order. An `Err` is out of memory.
pub fn book_of(
    alloc: Global,
    editions: &Editions,
    account: u32,
    sent: &[Sent],
) -> Result<Book, AllocError>
    requires { AllByRecursion (λ one. account_of one ≡ account) sent.now }
    ensures account { IfOk result (λ book. book.account ≡ account) }
    ensures accepted { IfOk result (λ book. book.accepted ≡ after_all editions.now nothing (map change_of sent.now)) }
    ensures priced_by { IfOk result (λ book. IsConsistent editions.now book) }
    ensures stored { IfOk result (λ book. IsStored editions.now book) }
{
    laws::stored();
    let mut book: Book = Fares::new(alloc, account);
    for one in sent {
        hand(&mut book, editions, one)?;
    }
    Ok(book)
}
