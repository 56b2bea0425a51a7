ghost use Rattle.std.specs.Prelude.{◌≡◌};

use crate::quote::Quote;
use pay_money::limits::OPERATORS;
use std::marker::Model;

/// What was charged or given back for a quote, so that all that was posted for its account and week comes to what is due.
#[derive(Clone, Debug, Drop, PartialEq, Eq)]
pub struct Posting {
    /// The quote that was posted.
    pub quote: Quote,
    /// What was charged, in pence: below 0 what was given back.
    pub amount: i64,
    /// What of it fell to each operator, in pence: operator 1 stands first.
    pub share_amounts: [i64; OPERATORS],
}

/// Postings in order. In a contract they are the list of them.
#[derive(Drop)]
pub struct Postings {
    postings: Vec<Posting>,
}

impl Model for Postings {
    ghost use Rattle.std.specs.Prelude.{List};
    ghost use Rattle.pay_rules.specs.declared.posting.Posting.{Posting};
    ghost use Rattle.pay_rules.specs.PostingsCode.{postings_code};

    ghost Value = { List Posting };

    ghost coded = { postings_code };

    ghost view = { λ p. p.postings.items };
}

impl Postings {
    /// The postings as a slice.
    pub fn as_slice(&self) -> &[Posting]
        ensures { result.now ≡ self.now }
    {
        &self.postings
    }

    /// The postings, which takes no memory.
    pub fn into_vec(self) -> Vec<Posting>
        ensures { result.items ≡ self }
    {
        self.postings
    }
}

/// Postings are made of a vector, which takes no memory.
impl From<Vec<Posting>> for Postings {
    ghost use Rattle.std.specs.Prelude.{◌≡◌};

    ghost from_gives = { λ vector postings. postings ≡ vector.items };

    fn from(postings: Vec<Posting>) -> Postings {
        Postings { postings }
    }
}
