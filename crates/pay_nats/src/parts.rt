//! A text in two parts.
ghost use Rattle.std.specs.Prelude.{◌≡◌, option_map, position};
ghost use Rattle.pay_nats.specs.Parts.{is_byte, parted};

/// What stands before the first of a byte and after it, if there is one.
#[tactic(auto, using(crate::proofs::Parted::parted_at, crate::proofs::Parted::not_parted))]
pub(crate) fn parted(text: &[u8], byte: u8) -> Option<(&[u8], &[u8])>
    ensures { option_map (λ it. (it.0.now, it.1.now)) result ≡ parted (is_byte byte) text.now }
{
    match place_of(text, byte) {
        Some(place) => Some((&text[..place], &text[place + 1..])),
        None => None,
    }
}

/// The place of the first of a byte.
fn place_of(text: &[u8], byte: u8) -> Option<usize>
    ensures { result ≡ position (is_byte byte) text.now }
{
    text.iter().position(|it| *it == byte)
}
