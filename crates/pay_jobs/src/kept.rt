//! What journals give back, beside what is kept with them.
ghost use Rattle.std.specs.Prelude.{◌≡◌, map, vec_items, IfErr, OnOk};
ghost use Rattle.std.specs.Arc.{arc_value};
ghost use Rattle.pay_kept.specs.Words.{IsAsKept};
ghost use Rattle.pay_jobs.specs.Kept.{AreAsKept, AreOtherThanKept, IsOtherThanKept};

use crate::fault::Fault;
use crate::replays::replayed_texts;
use jiff::tz::TimeZone;
use pay_book::Book;
use pay_shard::Shard;
use pay_tables::Editions;
use std::alloc::Global;
use std::sync::Arc;

/// That the accounts of a shard come to the same by what is kept beside their journal, or why not.
pub(crate) fn compare_with(
    alloc: Global,
    shard: &Shard<Book>,
    zone: &str,
    kept: &str,
) -> Result<(), Fault>
    requires { shard.now.memory.forgotten ≡ 0 }
    ensures alike { OnOk result (IsAsKept kept.now zone.now shard.now) }
    ensures other { IfErr result (IsOtherThanKept kept.now zone.now shard.now) }
{
    Ok(pay_kept::compare(alloc, shard, zone, kept)?)
}

/// That the accounts which the journals of a service give back, in a zone that is read of the text, come to the same by what is kept
/// beside them; or why not. They are let go again.
pub fn compare_texts(
    alloc: Global,
    editions: &Arc<Editions>,
    zone: &TimeZone<'_>,
    zone_text: &str,
    texts: &[Vec<u8>],
    kept: &str,
) -> Result<(), Fault>
    ensures alike { OnOk result (AreAsKept (arc_value editions.now) zone.now (map vec_items texts.now) zone_text.now kept.now) }
    ensures other { IfErr result (AreOtherThanKept (arc_value editions.now) zone.now (map vec_items texts.now) zone_text.now kept.now) }
{
    let editions = Arc::clone(editions)?;
    let replayed = replayed_texts(alloc, editions, zone, texts, 0)?;
    compare_with(alloc, replayed.0.shard(), zone_text, kept)
}
