//! What follows of lanes and workers that go on.
ghost use Rattle.std.specs.Prelude.{◌≡◌, List, length};
ghost use Rattle.std.specs.List.{AllZip};
ghost use Rattle.pay_lanes.specs.Parts.{LaneParts, WorkerParts};
ghost use Rattle.pay_lanes.specs.Ends.{lanes_of, AreTogether, GoOn};
ghost use Rattle.pay_lanes.specs.Laws.{PlacesRise, AnswersSeeEarlier};
ghost use Rattle.pay_lanes.specs.Working.{IsSameLane, IsSameWorker};

/// Workers and lanes that were opened together still are when they have gone on: all workers in order, and any of the lanes in
/// any order.
pub fn still_together()
    ensures any_order { (ws vs : List WorkerParts) (ls ks : List LaneParts) → AreTogether ws ls → GoOn ws vs ls ks → AreTogether vs ks }
    ensures in_order { (ws vs : List WorkerParts) (ls ks : List LaneParts) → AreTogether ws ls → AllZip IsSameWorker ws vs → AllZip IsSameLane ls ks → AreTogether vs ks }
{}

/// A lane is the same end as itself, and what is the same end as a same one is the same.
pub fn same_lanes()
    ensures itself { (l : LaneParts) → IsSameLane l l }
    ensures then { (l m n : LaneParts) → IsSameLane l m → IsSameLane m n → IsSameLane l n }
    ensures shards { (l m : LaneParts) → IsSameLane l m → length m.shards ≡ length l.shards }
{}

/// A worker is the same end as itself, and what is the same end as a same one is the same. Those that are the same ends answer as many
/// lanes.
pub fn same_workers()
    ensures itself { (w : WorkerParts) → IsSameWorker w w }
    ensures then { (w v u : WorkerParts) → IsSameWorker w v → IsSameWorker v u → IsSameWorker w u }
    ensures lanes { (ws vs : List WorkerParts) → AllZip IsSameWorker ws vs → lanes_of vs ≡ lanes_of ws }
{}

/// Once all have ended, the answers that a lane took from a shard stand at rising places of its journal, and each is the machine's reply after
/// all that the lane sent to that shard before, and after whatever else stands there before it.
pub fn answers_in_order()
    ensures rise { PlacesRise }
    ensures earlier { AnswersSeeEarlier }
{}
