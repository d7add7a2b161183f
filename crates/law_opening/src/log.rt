//! What the log has with which the life of an opened store begins, and that the laws of the log may begin with it.
ghost use Rattle.law_opening.specs.Log.Laws as logs;

use crate::lives::{law_guard_opens, law_index_opens};
use fkv_record::law_spellings_apart;
use law_log::{law_calls_in_order, law_chains_show_content, law_versions_show_content};
use law_paper::{law_chain_of_entry, law_values_alike};
use law_refine::{law_ghost_fixed, law_ghost_reserved, law_ghost_trace, law_ghost_unborn};

/// The log of an opened store has the records of its image that count, each at its address, with its key, its value and the address that it leads
/// to, and no others. They are in the version of the store's commit, and each stands in the chain of its key's home.
pub fn law_log_counted()
    ensures { logs.HasTheRecordsThatCount }
{
    law_spellings_apart();
    law_chain_of_entry();
}

/// None of its records lies below the store's begin. So it does without the records below that: no address of the log leads there.
pub fn law_log_above()
    ensures { logs.LogIsAbove }
{
    law_spellings_apart();
    law_chain_of_entry();
}

/// It is one with which the order law begins: each chain has just the published records of its home, each of which leads to the next, and addresses
/// fall; all are fixed and in the version of the store's commit, none is reserved, and each key shows the value that it has in the store. So the laws
/// of such a log hold after all events that keep to their rules, from the map of these values, which is that of the store's pairs.
pub fn law_log_opened()
    ensures values { logs.ShowsTheStoresValues }
    ensures opened { logs.BeginsTheOrderLaw }
    ensures pairs { logs.BeginsFromItsPairs }
{
    law_spellings_apart();
    law_chain_of_entry();
}

/// Bytes that recovery doesn't read make no difference to the map with which a life begins. So those below the store's begin don't.
pub fn law_maps_alike()
    ensures { logs.MapsAlike }
{
    law_log_opened();
    law_values_alike();
}

/// And it is one with which the life of the store's world begins: what is below the safe read-only offset is fixed, nothing is told, has taken effect or
/// is reserved, and no address from the tail up has a record.
pub fn law_log_begins()
    ensures { logs.BeginsItsLife }
{
    law_spellings_apart();
    law_chain_of_entry();
}

/// The index of the store's world has the entries of its chains: that of each home leads to where its chain begins, and a home whose chain is empty has
/// none.
pub fn law_log_heads()
    ensures { logs.IndexLeadsToItsHeads }
{
    law_spellings_apart();
    law_chain_of_entry();
    law_index_opens();
}

/// Of the valid records that the scan met, the lost ranges in the store's hand lose just those that the log doesn't have: each of them is lost or in the
/// log, and none is both. The slot of a log commit has to name these ranges.
pub fn law_lost_is_the_rest()
    ensures { logs.LostIsTheRest }
{
    law_spellings_apart();
    law_chain_of_entry();
}

/// So beside each life of a store's world there is such a log, from this one on: the laws of the log beside a life hold of it with no premise. And where
/// each of its events keeps to its rule, the order law holds of it: its history is legal from the store's map, and so on.
pub fn law_log_beside()
    ensures beside { logs.LivesHaveTheirLog }
    ensures ordered { logs.KeptLogsAreOrdered }
{
    law_log_begins();
    law_log_opened();
    law_guard_opens();
    law_ghost_trace();
    law_ghost_fixed();
    law_ghost_unborn();
    law_ghost_reserved();
    law_chains_show_content();
    law_versions_show_content();
    law_calls_in_order();
}
