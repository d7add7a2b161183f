//! Each life of a store that was opened keeps to the rules of the order law's log beside it.
ghost use Rattle.law_order.specs.Ordered.Laws as orders;

use law_commit::{law_mail, law_world_flushed_is_synced};

/// Every life that begins as a store was opened, calls with numbers below 2^64, and gives no ticket again while a request waits that has it, keeps order, with
/// commits too: each event of the log beside it is enabled, what a session is about to change in place is published, and at each moment sessions know what
/// they have to of the log, and reads have come as far in it as control states say. And sessions keep their updates apart from those of other versions, and no
/// attempt ends as a shift and isn't made again. The log does without what lies below its begin, and no request goes by a floor above that.
pub fn law_world_ordered()
    ensures { orders.KeepsOrderInLives }
{
    law_mail();
    law_world_flushed_is_synced();
}

/// So each event of the log beside such a life keeps to its rule, and each change in place is of a published record: the premises under which the
/// order law speaks of the life itself.
pub fn law_rules_kept()
    ensures enabled { orders.EnablesItsEvents }
    ensures published { orders.PublishesItsChanges }
{
    law_world_ordered();
}

/// In each such life no try of a read is turned away, be it the first one or a later one. At its end it tells its key's value, or that there is none, or it seeks a
/// record of the device: it never ends as contended, as a shift, or because the index or the log is full.
/// Each read that waits seeks a record of the device, or it was told that its record is gone. Then it goes by the begin that was told, above where the log began
/// at first, and isn't tried yet. So it is of all but the one that is polled just then. A poll tries a read only where it was told so: else it waits for the
/// mailbox alone.
/// While the log begins where it did at first none is told so. So each that waits seeks a record, and no poll tries one.
pub fn law_reads_met()
    ensures met { orders.MeetsReadsInLives }
    ensures seeking_or_told { orders.SeeksOrWasToldInLives }
    ensures tried_if_gone { orders.PollsTryWhatIsGoneInLives }
    ensures seeking { orders.SeeksInLives }
    ensures untried { orders.PollsTryNoReadInLives }
{
    law_mail();
    law_world_flushed_is_synced();
}
