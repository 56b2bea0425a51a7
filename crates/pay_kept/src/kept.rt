//! The accounts that a journal gives back, beside what is kept with it.
ghost use Rattle.std.specs.Prelude.{◌≡◌, Ok, IfOk, IfErr, OnOk};
ghost use Rattle.pay_fare_file.specs.Words.{fare_text};
ghost use Rattle.pay_kept.specs.Kept.{IsAsKept, IsNotAsKept, IsNotRead};

use crate::fault::KeptFault;
use crate::other::first_other;
use crate::text::parts_kept;
use pay_book::Book;
use pay_editions::read_editions;
use pay_fare_file::FareFileFault;
use pay_shard::Shard;
use pay_tables::Editions;
use std::alloc::Global;

/// The fare file of a text.
fn read(alloc: Global, fares: &str) -> Result<Editions, KeptFault>
    ensures ok { IfOk result (λ editions. fare_text fares.now ≡ Ok editions) }
    ensures refused { IfErr result (IsNotRead fares.now) }
{
    match read_editions(alloc, fares) {
        Ok(editions) => Ok(editions),
        Err(FareFileFault::Memory) => Err(KeptFault::Memory),
        Err(why) => Err(KeptFault::Refused(why)),
    }
}

/// That what is kept beside a journal is with this zone, and that each account of a shard that has forgotten nothing comes to the same by its fare file as by the
/// shard's; or why not.
pub fn compare(alloc: Global, shard: &Shard<Book>, zone: &str, kept: &str) -> Result<(), KeptFault>
    requires { shard.now.memory.forgotten ≡ 0 }
    ensures alike { OnOk result (IsAsKept kept.now zone.now shard.now) }
    ensures other { IfErr result (IsNotAsKept kept.now zone.now shard.now) }
{
    let Some(parts) = parts_kept(kept, zone) else {
        return Err(KeptFault::OtherZone);
    };
    let old = read(alloc, parts.1)?;
    match first_other(alloc, shard, &old)? {
        None => Ok(()),
        Some(other) => Err(KeptFault::OtherFares {
            day: other.difference.day,
            key: other.difference.key,
            account: other.account,
            on: other.on,
        }),
    }
}
