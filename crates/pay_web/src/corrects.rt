//! What puts corrections, and has the pages for it.
ghost use Rattle.std.specs.Prelude.{IfOk, List, Option, ℕ};
ghost use Rattle.std.specs.String.{string_bytes};
ghost use Rattle.pay_web.specs.Asked.{IsAsked};

use crate::asked::Asked;
use crate::pages::PageFault;
use pay_wire::SpelledFix;

/// Who looks at a correction before it is made.
#[derive(Clone, Copy)]
pub struct Viewer<'a> {
    /// What the page calls the clerk.
    pub name: &'a str,
    /// What only a form of this page has.
    pub token: &'a str,
}

/// What puts corrections, and has the pages for it.
pub trait Corrects {
    ghost use Rattle.pay_web.specs.declared.asked.Asked.{Asked};
    ghost use Rattle.pay_web.specs.declared.corrects.Viewer.{Viewer};
    ghost use Rattle.pay_wire.specs.declared.command.SpelledFix.{SpelledFix};

    // this may be the page that asks what to correct
    ghost is_choice: { Self → Asked → List ℕ → Type 0 };

    // this may be the page that shows this clerk what a correction does
    ghost is_preview: { Self → Asked × SpelledFix → Viewer → List ℕ → Type 0 };

    // of a service day, at this local second of it, this is the instant, if there is any
    ghost is_instant: { Self → ℕ → ℕ → Option ℕ → Type 0 };

    // the first put this correction, once, and became the second
    ghost puts: { Self → SpelledFix → Self → Type 0 };

    // this may be the page that says what came of a correction
    ghost is_done: { Self → Asked × SpelledFix → List ℕ → Type 0 };

    /// The page that asks what to correct.
    fn choice(&self, asked: Asked) -> Result<String, PageFault>
        requires { IsAsked asked }
        ensures { IfOk result (λ text. is_choice self.now asked (string_bytes text)) };

    /// The page that shows what a correction does, and asks for it.
    fn preview(
        &self,
        asked: Asked,
        fix: &SpelledFix,
        viewer: Viewer<'_>,
    ) -> Result<String, PageFault>
        requires { IsAsked asked }
        ensures { IfOk result (λ text. is_preview self.now (asked, fix.now) viewer.entry (string_bytes text)) };

    /// Is told of a secret that is wrong: that of the clerk of this number, or else of a number that no clerk has.
    fn note_wrong_secret(&self, staff: Option<u16>);

    /// The number that a correction gets which is made now.
    fn next_seq(&self) -> u32;

    /// The instant of a service day, by its local second, if there is any.
    fn instant(&self, day: u32, second: u32) -> Option<u64>
        ensures { is_instant self.now day second result };

    /// Puts a correction, once, and says what came of it. After an `Err` it may have been put or not.
    fn put(&mut self, asked: Asked, fix: &SpelledFix) -> Result<String, PageFault>
        requires { IsAsked asked }
        ensures put { puts self.old fix.now self.new }
        ensures done { IfOk result (λ text. is_done self.new (asked, fix.now) (string_bytes text)) };
}
