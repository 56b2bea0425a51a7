//! To whom a message is sent, and how many bytes it has.
ghost use Rattle.std.specs.Prelude.{◌≤◌};
ghost use Rattle.std.specs.Option.{ForSome};

/// To whom a message is sent, and how many bytes it has.
#[derive(Clone, Copy)]
pub(crate) struct Sizes<'a> {
    pub subject: &'a [u8],
    pub sid: u64,
    pub reply: Option<&'a [u8]>,
    /// How many bytes the headers have, if there are any.
    pub headers: Option<u64>,
    /// How many bytes the headers and the payload have together.
    pub total: u64,
    ghost headers_within: { ForSome headers (λ bytes. bytes ≤ total) },
}
