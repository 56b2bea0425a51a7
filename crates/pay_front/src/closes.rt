//! The closes of all partitions, put together as one.
ghost use Rattle.std.specs.Prelude.{◌≡◌, ◌≢◌, ◌≤◌, ◌++◌, [], length, true, false, map, IfOk, IfNone, OnOk, option_copied, vec_items, flat_map, codes};
ghost use Rattle.std.specs.List.{position_or_len};
ghost use Rattle.pay_wire.specs.Fields.{is_space};
ghost use Rattle.pay_front.specs.Closes.{Adds, IsPutTogether, PostedLine, account_in, after_pay, all_postings, close_in, close_text, first_other, first_word, is_done, posted_line};

use itoa::Buffer;
use memchr::memchr;
use pay_numeral::number_of;
use pay_session::cut;
use std::alloc::{AllocError, Global};

/// A posting in the reply to a close: its account, and its line without a newline.
#[derive(Clone, Copy)]
struct Posted<'a> {
    account: u64,
    line: &'a [u8],
}

/// The account of a posting's line.
fn account_in(line: &[u8]) -> Option<u64>
    ensures { result ≡ account_in line.now }
{
    number_of(first_word(after_pay(line)?))
}

/// What stands after the word of a posting.
fn after_pay(line: &[u8]) -> Option<&[u8]>
    ensures { option_copied result ≡ after_pay line.now }
{
    line.strip_prefix(b"PAY ")
}

/// What stands before the first space, or all.
fn first_word(text: &[u8]) -> &[u8]
    ensures { result.now ≡ first_word text.now }
{
    &text[..word_end(text)]
}

/// Where the first space stands, or the length.
#[tactic(auto, using(crate::proofs::FirstSpace::by_search))]
fn word_end(text: &[u8]) -> usize
    ensures value { result ≡ position_or_len is_space text.now }
    ensures within { result ≤ length text.now }
{
    memchr(b' ', text).unwrap_or(text.len())
}

/// Whether a line stands after the postings.
fn is_done(line: &[u8]) -> bool
    ensures { result ≡ is_done line.now }
{
    line.starts_with(b"DONE ")
}

/// Whether a line is the last of the reply to a close, after which there is this.
fn is_last(line: &[u8], rest: &[u8]) -> bool
    ensures last { result ≡ true → (is_done line.now ≡ true) × (rest.now ≡ []) }
    ensures other { result ≡ false → is_done line.now ≡ true → rest.now ≢ [] }
{
    is_done(line) && rest.is_empty()
}

/// Adds the postings of a reply, and says whether it is one to a close: lines of postings, and then one that says that it is done.
fn add_postings<'a>(all: &mut Vec<Posted<'a>>, reply: &'a [u8]) -> Result<bool, AllocError>
    ensures { IfOk result (λ is_close. Adds is_close (close_in reply.now) (map posted_line all.old.items) (map posted_line all.new.items)) }
{
    let mut ahead = reply;
    while let Some((line, rest)) = cut(ahead) {
        let Some(account) = account_in(line) else {
            return Ok(is_last(line, rest));
        };
        all.push(Posted { account, line })
            .map_err(AllocError::from)?;
        ahead = rest;
    }
    Ok(false)
}

/// Adds the postings of all replies, up to the first that is none to a close, if there is one.
fn postings_of<'a>(
    all: &mut Vec<Posted<'a>>,
    replies: &'a [Vec<u8>],
) -> Result<Option<&'a [u8]>, AllocError>
    ensures other { IfOk result (λ other. option_copied other ≡ first_other (map vec_items replies.now)) }
    ensures all { IfOk result (λ other. IfNone other (map posted_line all.new.items ≡ map posted_line all.old.items ++ all_postings (map vec_items replies.now))) }
{
    let Some((reply, rest)) = replies.split_first() else {
        return Ok(None);
    };
    if add_postings(all, reply)? {
        postings_of(all, rest)
    } else {
        Ok(Some(reply))
    }
}

/// Writes the lines of postings, a newline after each, at the end.
fn push_lines(out: &mut Vec<u8>, all: &[Posted<'_>]) -> Result<(), AllocError>
    ensures { OnOk result (out.new.items ≡ out.old.items ++ flat_map (λ (p : PostedLine). p.line ++ codes "\n") (map posted_line all.now)) }
{
    for posted in all {
        out.extend_from_slice(posted.line)?;
        out.extend_from_slice(b"\n")?;
    }
    Ok(())
}

/// Writes the reply to the close of a day at the end.
fn push_close(out: &mut Vec<u8>, day: u32, all: &[Posted<'_>]) -> Result<(), AllocError>
    ensures { OnOk result (out.new.items ≡ out.old.items ++ close_text day (map posted_line all.now)) }
{
    push_lines(out, all)?;
    out.extend_from_slice(b"DONE ")?;
    out.extend_from_slice(Buffer::new().format(day).as_bytes())?;
    out.extend_from_slice(b" ")?;
    out.extend_from_slice(Buffer::new().format(all.len()).as_bytes())?;
    out.extend_from_slice(b"\n")
}

/// Writes what the replies of all partitions to the close of a day come to, in place of what was held: their postings by account, and one line
/// that it is done; or the first reply that is none to a close.
pub(crate) fn put_together(
    alloc: Global,
    day: u32,
    replies: &[Vec<u8>],
    out: &mut Vec<u8>,
) -> Result<(), AllocError>
    ensures { OnOk result (IsPutTogether day (map vec_items replies.now) out.new.items) }
{
    out.clear();
    let mut all = Vec::new(alloc);
    if let Some(other) = postings_of(&mut all, replies)? {
        return out.extend_from_slice(other);
    }
    all.sort_by_key(|posted| posted.account)?;
    push_close(out, day, &all)
}
