//! What stands around each page.
use pay_html::Escaped;
use std::fmt;

/// The start of a page, up to its first heading, which is its title too.
#[derive(Clone, Copy)]
pub struct PageStart<'a> {
    /// The title, a text.
    pub title: &'a str,
}

impl<'a> fmt::Display for PageStart<'a> {
    ghost use Rattle.std.specs.Prelude.{Some};
    ghost use Rattle.pay_page.specs.Frame.{page_start};

    ghost output = { λ it. Some (page_start it.title.now) };

    #[tactic(auto, unfolding(crate::specs::Frame::page_start))]
    fn fmt<W: fmt::Write>(&self, f: &mut fmt::Formatter<W>) -> fmt::Result {
        let title = Escaped(self.title);
        write!(
            f,
            "<!DOCTYPE html>\n<html lang=\"en\">\n<head>\n<meta charset=\"utf-8\">\n\
<meta name=\"viewport\" content=\"width=device-width, initial-scale=1\">\n<title>{title}</title>\n\
<link rel=\"stylesheet\" href=\"/style.css\">\n</head>\n<body>\n<main>\n<h1>{title}</h1>\n"
        )
    }
}

/// The end of a page.
#[derive(Clone, Copy)]
pub struct PageEnd;

impl fmt::Display for PageEnd {
    ghost use Rattle.std.specs.Prelude.{Some};
    ghost use Rattle.pay_page.specs.Frame.{page_end};

    ghost output = { λ _. Some page_end };

    #[tactic(auto, unfolding(crate::specs::Frame::page_end))]
    fn fmt<W: fmt::Write>(&self, f: &mut fmt::Formatter<W>) -> fmt::Result {
        f.write_str("</main>\n</body>\n</html>\n")
    }
}
