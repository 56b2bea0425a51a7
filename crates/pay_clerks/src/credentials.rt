//! What a browser sends in the field `Authorization`, as RFC 7617 has it.
ghost use Rattle.std.specs.Prelude.{◌≡◌, ◌≤◌, length, option_copied, option_map, position, take, IfSome};
ghost use Rattle.base64.specs.Engines.{standard};
ghost use Rattle.base64.specs.GeneralPurpose.{decoded_of};
ghost use Rattle.pay_clerks.specs.Credentials.{decoded, is_colon, symbols_of};
ghost use Rattle.pay_clerks.specs.Parts.{parted};
ghost use Rattle.pay_clerks.specs.declared.limits.TheConstants.{MOST_BYTES, MOST_SYMBOLS};

use crate::limits::MOST_SYMBOLS;
use base64::engine::general_purpose::STANDARD;

/// The symbols of base64 in the value of a field.
pub(crate) fn symbols_of(value: &[u8]) -> Option<&[u8]>
    ensures { option_copied result ≡ symbols_of value.now }
{
    value.strip_prefix(b"Basic ")
}

/// Puts what symbols stand for at the front of a room, and tells how many bytes that are.
pub(crate) fn decode(symbols: &[u8], room: &mut [u8]) -> Option<usize>
    requires { MOST_BYTES ≤ length room.old }
    ensures value { option_map (λ bytes. take bytes room.new) result ≡ decoded symbols.now }
    ensures within { IfSome result (λ bytes. bytes ≤ length room.new) }
{
    if symbols.len() > MOST_SYMBOLS {
        None
    } else {
        decode_all(symbols, room)
    }
}

/// The same for symbols for which there is room.
#[tactic(auto, using(crate::proofs::Decoding::decoded_ok, crate::proofs::Decoding::decoded_err))]
fn decode_all(symbols: &[u8], room: &mut [u8]) -> Option<usize>
    requires few { length symbols.now ≤ MOST_SYMBOLS }
    requires room { MOST_BYTES ≤ length room.old }
    ensures value { option_map (λ bytes. take bytes room.new) result ≡ decoded_of standard symbols.now }
    ensures within { IfSome result (λ bytes. bytes ≤ length room.new) }
{
    match STANDARD.decode_slice_unchecked(symbols, room) {
        Ok(bytes) => Some(bytes),
        Err(_) => None,
    }
}

/// What stands before the first colon and after it, if there is one.
#[tactic(auto, using(crate::proofs::Parted::parted_at, crate::proofs::Parted::not_parted))]
pub(crate) fn parted(text: &[u8]) -> Option<(&[u8], &[u8])>
    ensures { option_map (λ it. (it.0.now, it.1.now)) result ≡ parted is_colon text.now }
{
    match colon_in(text) {
        Some(colon) => Some((&text[..colon], &text[colon + 1..])),
        None => None,
    }
}

/// The place of the first colon.
fn colon_in(text: &[u8]) -> Option<usize>
    ensures { result ≡ position is_colon text.now }
{
    text.iter().position(|byte| *byte == b':')
}
