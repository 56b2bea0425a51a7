//! Texts as strings of JSON.
ghost use Rattle.std.specs.Prelude.{◌≡◌, ◌<◌, encode_utf8};
ghost use Rattle.std.specs.Char.{digit_char};
ghost use Rattle.std.specs.Fmt.{WritesOnOk};
ghost use Rattle.json.specs.Print.{escape};
ghost use Rattle.pay_json.specs.Escapes.{control, HasNoLetter};

use std::fmt;

/// A text as a string of JSON, with its quotation marks: `"a \"b\""` of `a "b"`.
#[derive(Clone, Copy)]
pub struct Quoted<'a>(pub &'a str);

/// A text as it stands between the quotation marks: `"`, `\` and all control characters below 32 are escaped.
#[derive(Clone, Copy)]
struct Escaped<'a>(&'a str);

impl<'a> fmt::Display for Quoted<'a> {
    ghost use Rattle.std.specs.Prelude.{Some};
    ghost use Rattle.json.specs.Print.{quoted};

    ghost output = { λ it. Some (quoted it.0.now) };

    fn fmt<W: fmt::Write>(&self, f: &mut fmt::Formatter<W>) -> fmt::Result {
        let text = Escaped(self.0);
        write!(f, "\"{text}\"")
    }
}

impl<'a> fmt::Display for Escaped<'a> {
    ghost use Rattle.std.specs.Prelude.{Some};
    ghost use Rattle.json.specs.Print.{escape};

    ghost output = { λ it. Some (escape it.0.now) };

    fn fmt<W: fmt::Write>(&self, f: &mut fmt::Formatter<W>) -> fmt::Result {
        for letter in self.0.chars() {
            write_letter(f, letter)?;
        }
        Ok(())
    }
}

/// Writes a character, or what stands for it.
#[tactic(auto, unfolding(json::specs::Print::escape_byte))]
fn write_letter<W: fmt::Write>(f: &mut fmt::Formatter<W>, letter: char) -> fmt::Result
    ensures { WritesOnOk W.write_str_gives f.old result (escape (encode_utf8 letter)) f.new }
{
    match letter {
        '"' => f.write_str("\\\""),
        '\\' => f.write_str("\\\\"),
        '\u{8}' => f.write_str("\\b"),
        '\t' => f.write_str("\\t"),
        '\n' => f.write_str("\\n"),
        '\u{c}' => f.write_str("\\f"),
        '\r' => f.write_str("\\r"),
        _ => write_other(f, letter),
    }
}

/// Writes a character that has no letter of its own behind a backslash: a control character by its number, and all else as it is.
fn write_other<W: fmt::Write>(f: &mut fmt::Formatter<W>, letter: char) -> fmt::Result
    requires { HasNoLetter letter }
    ensures { WritesOnOk W.write_str_gives f.old result (escape (encode_utf8 letter)) f.new }
{
    if letter < ' ' {
        write_control(f, u32::from(letter))
    } else {
        f.write_char(letter)
    }
}

/// Writes what stands for a control character: `\u001f`.
fn write_control<W: fmt::Write>(f: &mut fmt::Formatter<W>, code: u32) -> fmt::Result
    requires { code < 32 }
    ensures { WritesOnOk W.write_str_gives f.old result (control code) f.new }
{
    let high = hex_digit(code / 16);
    let low = hex_digit(code % 16);
    write!(f, "\\u00{high}{low}")
}

/// A hexadecimal digit.
fn hex_digit(digit: u32) -> char
    requires { digit < 16 }
    ensures { result ≡ digit_char digit }
{
    match char::from_digit(digit, 16) {
        Some(letter) => letter,
        None => unreachable!(),
    }
}
