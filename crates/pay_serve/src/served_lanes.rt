//! Lanes in threads.
ghost use Rattle.std.specs.Prelude.{◌≡◌, ◌<◌, vec_len, vec_capacity};

use crate::lanes::Informed;
use pay_office::Lane;

/// Lanes that are served, each by a thread of its own, and room for them once they are back.
#[derive(Drop)]
pub struct ServedLanes {
    pub(crate) informed: Vec<Informed>,
    pub(crate) back: Vec<Lane>,
    ghost room: { vec_len informed < vec_capacity back },
    ghost none: { vec_len back ≡ 0 },
}
