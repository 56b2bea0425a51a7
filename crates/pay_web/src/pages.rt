//! What has the pages of accounts.
ghost use Rattle.std.specs.Prelude.{IfOk, List, Option, option_map, ℕ};
ghost use Rattle.std.specs.String.{string_bytes};
ghost use Rattle.pay_web.specs.Asked.{IsAsked};

use crate::asked::Asked;
use std::alloc::AllocError;

/// Why there is no page.
#[derive(Clone, Copy, Debug, PartialEq, Eq)]
pub enum PageFault {
    /// What it is made of cannot be had: the log says why.
    Unavailable,
    /// Memory was refused.
    Memory,
}

impl From<AllocError> for PageFault {
    fn from(_error: AllocError) -> PageFault {
        PageFault::Memory
    }
}

/// What has a page of each account.
pub trait Pages {
    ghost use Rattle.pay_web.specs.declared.asked.Asked.{Asked};

    // this may be the page of what is asked for
    ghost is_page: { Self → Asked → List ℕ → Type 0 };

    // this may be the same for programs
    ghost is_json: { Self → Asked → List ℕ → Type 0 };

    // this may be what a service has counted, if one is asked
    ghost is_metrics: { Self → Option (List ℕ) → Type 0 };

    /// The page of what is asked for, an HTML document.
    fn page(&self, asked: Asked) -> Result<String, PageFault>
        requires { IsAsked asked }
        ensures { IfOk result (λ text. is_page self.now asked (string_bytes text)) };

    /// The same for programs, a JSON document.
    fn json(&self, asked: Asked) -> Result<String, PageFault>
        requires { IsAsked asked }
        ensures { IfOk result (λ text. is_json self.now asked (string_bytes text)) };

    /// What a service has counted, in the text format of Prometheus, if one is asked. An `Err` is out of memory.
    fn metrics(&self) -> Result<Option<String>, AllocError>
        ensures { IfOk result (λ text. is_metrics self.now (option_map string_bytes text)) };

    /// Whether pages can be made.
    fn is_ready(&self) -> bool;
}
