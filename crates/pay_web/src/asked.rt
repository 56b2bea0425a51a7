//! The account and the day that a query asks for.
ghost use Rattle.std.specs.Prelude.{◌≡◌, ◌≤◌, codes, option_copied, IfSome};
ghost use Rattle.pay_web.specs.Asked.{IsAsked, account_of, asked_by, asked_by_values, if_account, value_of};

use pay_dates::read_day;

/// What a page is asked for: a service day of an account, or its week through that day.
#[derive(Clone, Copy, Debug, PartialEq, Eq)]
pub struct Asked {
    /// The account: 1 to 4,294,967,295.
    pub account: u32,
    /// The service day, counted from 1970-01-01: 4 to 50,000.
    pub day: u32,
    /// Whether the week is asked for.
    pub week: bool,
}

/// What `account=A&day=D` asks for, where the day is its number or its date, as a form in a browser sends it. None for any other query.
pub(crate) fn asked_by(query: &str, week: bool) -> Option<Asked>
    ensures asked { result ≡ asked_by week query.now }
    ensures in_range { IfSome result IsAsked }
{
    let (account, day) = query.split_once('&')?;
    asked_by_values(account, day, week)
}

/// What the fields `account=A` and `day=D` ask for.
pub(crate) fn asked_by_values(account: &str, day: &str, week: bool) -> Option<Asked>
    ensures asked { result ≡ asked_by_values week (value_of (codes "account=") account.now) (value_of (codes "day=") day.now) }
    ensures in_range { IfSome result IsAsked }
{
    let account = account_of(value_of(account, "account=")?)?;
    let day = read_day(value_of(day, "day=")?)?;
    Some(Asked { account, day, week })
}

/// What stands after a name, where the text begins with it.
pub(crate) fn value_of<'a>(text: &'a str, name: &str) -> Option<&'a str>
    ensures { option_copied result ≡ value_of name.now text.now }
{
    text.strip_prefix(name)
}

/// The account of this number.
fn account_of(text: &str) -> Option<u32>
    ensures value { result ≡ account_of text.now }
    ensures first { IfSome result (λ account. 1 ≤ account) }
{
    if_account(text.parse::<u32>().ok()?)
}

/// The account of this number, if it is one.
fn if_account(number: u32) -> Option<u32>
    ensures value { result ≡ if_account number }
    ensures first { IfSome result (λ account. 1 ≤ account) }
{
    if number >= 1 { Some(number) } else { None }
}
