//! A correction as a line.
use pay_html::Escaped;
use std::fmt;

/// A correction as it is sent, printed as `<code>FIX 3 1 7 VOID 1 1</code>`.
#[derive(Clone, Copy)]
pub struct FixLine<'a> {
    /// The member of staff.
    pub staff: u32,
    /// The sequence number of the staff.
    pub seq: u32,
    /// The account.
    pub account: u32,
    /// The end of the line, a text.
    pub what: &'a str,
}

impl<'a> fmt::Display for FixLine<'a> {
    ghost use Rattle.std.specs.Prelude.{Some};
    ghost use Rattle.pay_fix_page.specs.FixLines.{fix_line};

    ghost output = { λ it. Some (fix_line it.staff it.seq it.account it.what.now) };

    #[tactic(auto, unfolding(crate::specs::FixLines::fix_line))]
    fn fmt<W: fmt::Write>(&self, f: &mut fmt::Formatter<W>) -> fmt::Result {
        let (staff, seq, account) = (self.staff, self.seq, self.account);
        let what = Escaped(self.what);
        write!(f, "<code>FIX {staff} {seq} {account} {what}</code>")
    }
}
