//! Laws of the journals of a service's shards.
ghost use Rattle.pay_journal_laws.specs.HaveKept.{KeptGivesBack};
ghost use Rattle.pay_journal_laws.specs.NextServices.{ServiceGoesOn};
ghost use Rattle.pay_journal_laws.specs.Services.{ServiceGivesBack, ServicePartsAreTaken};
ghost use Rattle.pay_serve.specs.Words.{HoldsPassed};

use crate::texts;
use pay_journal::Keeper;

/// By bytes: what gates have kept after the whole lines of their journals, and the journals that have no gate, give back just the
/// accounts of all shards, in whatever order the lines are taken again and however often.
pub fn kept_gives_back()
    ensures { KeptGivesBack }
{
    pay_journal::laws::one_line();
    texts::read_back();
    texts::kept_asks_more();
    texts::repeats_are_of_new();
    texts::new_gives_back();
}

/// What a service leaves in its journals gives its accounts back: if it could keep everything, and its keepers had held the whole
/// lines of what was taken again, then the lines of its journals as they now stand, in whatever order, are each accepted by one
/// machine over all accounts that is never out of memory, and this ends with just the accounts of the service's shards.
pub fn service_gives_back<K: Keeper>()
    ensures whole { ServiceGivesBack (HoldsPassed K.holds K.HasFailed K.IsSettled) }

    // Whatever asks for no more than that is accepted as well, such as journals that were cut.
    ensures part { ServicePartsAreTaken (HoldsPassed K.holds K.HasFailed K.IsSettled) }
{
    kept_gives_back();
    texts::parts_are_taken();
    texts::part_asks_alike();
}

/// From service to service: one that takes up what another has left, with the same fare file and in the same zone, begins with the
/// accounts with which that one ended, over however many shards. Each is in its shard what it was in its shard there.
pub fn service_goes_on<K: Keeper>()
    ensures { ServiceGoesOn (HoldsPassed K.holds K.HasFailed K.IsSettled) }
{
    kept_gives_back();
    pay_shard::laws::merge();
}
