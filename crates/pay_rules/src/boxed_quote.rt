ghost use Rattle.std.specs.Prelude.{◌≡◌, IfOk};

use crate::quote::Quote;
use std::alloc::{AllocError, Global};
use std::marker::Model;

/// A quote in memory of its own, so that what may be one is no longer than a pointer. In a contract it is the quote.
#[derive(Drop)]
pub struct BoxedQuote {
    quote: Box<Quote>,
}

impl Model for BoxedQuote {
    ghost use Rattle.pay_rules.specs.QuoteParts.{QuoteParts, quote_code};

    ghost Value = { QuoteParts };

    ghost coded = { quote_code };

    ghost view = { λ b. b.quote.value };
}

impl BoxedQuote {
    /// The quote in memory of its own. An `Err` is out of memory.
    pub fn new(alloc: Global, quote: Quote) -> Result<BoxedQuote, AllocError>
        ensures { IfOk result (λ boxed. boxed ≡ quote) }
    {
        Ok(BoxedQuote {
            quote: Box::new(alloc, quote)?,
        })
    }

    /// The quote.
    pub fn quote(&self) -> &Quote
        ensures { result.now ≡ self.now }
    {
        &self.quote
    }
}
