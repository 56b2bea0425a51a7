//! Text with entities for the characters that mean something in HTML.
ghost use Rattle.std.specs.Prelude.{encode_utf8};
ghost use Rattle.std.specs.Fmt.{WritesOnOk};
ghost use Rattle.pay_html.specs.Escapes.{escaped};

use std::fmt;

/// A text as it stands in an HTML page, between tags or in the quotes of an attribute: `Tom &amp; &lt;b&gt;` of
/// `Tom & <b>`. `&`, `<`, `>`, `"` and `'` become entities, and all else stays.
#[derive(Clone, Copy)]
pub struct Escaped<'a>(pub &'a str);

impl<'a> fmt::Display for Escaped<'a> {
    ghost use Rattle.std.specs.Prelude.{Some};
    ghost use Rattle.pay_html.specs.Escapes.{escaped};

    ghost output = { λ it. Some (escaped it.0.now) };

    fn fmt<W: fmt::Write>(&self, f: &mut fmt::Formatter<W>) -> fmt::Result {
        for letter in self.0.chars() {
            write_letter(f, letter)?;
        }
        Ok(())
    }
}

/// Writes a character, or the entity that stands for it.
fn write_letter<W: fmt::Write>(f: &mut fmt::Formatter<W>, letter: char) -> fmt::Result
    ensures { WritesOnOk W.write_str_gives f.old result (escaped (encode_utf8 letter)) f.new }
{
    match letter {
        '&' => f.write_str("&amp;"),
        '<' => f.write_str("&lt;"),
        '>' => f.write_str("&gt;"),
        '"' => f.write_str("&quot;"),
        '\'' => f.write_str("&#39;"),
        _ => f.write_char(letter),
    }
}
