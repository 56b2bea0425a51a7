ghost use Rattle.std.specs.Prelude.{◌≡◌, ◌≤◌};
ghost use Rattle.std.specs.List.{insert};
ghost use Rattle.smallvec.specs.SmallVec.{small_vec_len, HasRoomFor};

use smallvec::SmallVec;
use std::alloc::Global;
use std::default::MadeWith;

/// Puts one more into a list, which has room for it.
pub(crate) fn put_in<T: Copy + MadeWith<Global>, const INLINE: usize>(
    list: &mut SmallVec<T, INLINE>,
    place: usize,
    item: T,
)
    requires within { place ≤ small_vec_len list.old }
    requires room { HasRoomFor list.old 1 }
    ensures { list.new.items ≡ insert list.old.items place item }
{
    match list.insert(place, item) {
        Ok(()) => {}
        Err(_) => unreachable!(),
    }
}
