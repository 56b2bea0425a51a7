//! The names under which messages are published, and texts of one line.
ghost use Rattle.std.specs.Prelude.{◌≡◌, option_copied};
ghost use Rattle.std.specs.List.{list_all};
ghost use Rattle.pay_nats.specs.Frames.{is_text};
ghost use Rattle.pay_nats.specs.Reading.{if_text};
ghost use Rattle.pay_nats.specs.Subjects.{is_subject, is_visible};

/// Whether some bytes can be a subject: there are some, and none of them is a space, a tab, a CR or an LF, which end a word of a line.
pub fn is_subject(name: &[u8]) -> bool
    ensures { result ≡ is_subject name.now }
{
    !name.is_empty() && are_visible(name)
}

fn are_visible(name: &[u8]) -> bool
    ensures { result ≡ list_all is_visible name.now }
{
    name.iter().all(|byte| is_visible(*byte))
}

fn is_visible(byte: u8) -> bool
    ensures { result ≡ is_visible byte }
{
    byte != b' ' && byte != b'\t' && byte != b'\r' && byte != b'\n'
}

/// A text, if it has no CR and no LF.
pub(crate) fn if_text(text: &[u8]) -> Option<&[u8]>
    ensures { option_copied result ≡ if_text text.now }
{
    if is_text(text) { Some(text) } else { None }
}

fn is_text(text: &[u8]) -> bool
    ensures { result ≡ is_text text.now }
{
    text.iter().all(|byte| *byte != b'\r' && *byte != b'\n')
}
