//! What postings come to, and that those that are written as rows are read back as they were. Each law is the contract of a function that
//! does nothing: a caller whose proof needs a law calls its function.
ghost use Rattle.std.specs.Prelude.{◌≡◌, List, [], Ok};
ghost use Rattle.pay_rules.specs.declared.posting.Posting.{Posting};
ghost use Rattle.pay_rules.specs.QuoteParts.{QuoteParts, IsQuote};
ghost use Rattle.pay_postings.specs.Postings.{post};
ghost use Rattle.pay_postings.specs.Paid.{ArePaid};
ghost use Rattle.pay_postings.specs.NetRows.{NetIsOfPostings};
ghost use Rattle.pay_postings.specs.Laws.{PostedStayKept, NetIsDue, SharesAreDue, SharesComeToDue, PostingsAreReadBack};

/// Postings that were posted one after another stay such when one more quote is posted, and no postings are such.
pub fn paid()
    ensures none { ArePaid [] }
    ensures one_more { (list after : List Posting) (quote : QuoteParts) (given : Posting) → ArePaid list → IsQuote quote
        → post list quote ≡ Ok (given, after) → ArePaid after }
    ensures all { PostedStayKept }
{}

/// Once quotes were posted, payments less refunds are what is due by the last quote of each account and week, and
/// what fell to each operator is its share, all of it together.
pub fn payments_come_to_what_is_due()
    ensures net { NetIsDue }
    ensures by_operator { SharesAreDue }
    ensures together { SharesComeToDue }
{}

/// Of postings that were posted one after another and have rising numbers, those of an account are read back from
/// their rows, in order, and from the rows of their shares, in any order.
pub fn postings_back()
    ensures { PostingsAreReadBack }
{}

/// Where rows say postings of an account, what their amounts come to for a week is the net of these postings.
pub fn net_of_rows()
    ensures { NetIsOfPostings }
{}
