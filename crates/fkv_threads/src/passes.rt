//! Passes that meet, and the table's end.
ghost use Rattle.fkv_threads.specs.Said as said;

use fkv_disk::Device;
use law_threads::{Pass, Table, law_threads};

/// Two sessions' passes meet, as where a thread has told another one of its calls. Each session then has seen what either had seen, so its next calls
/// stand behind those. Each is ready as before. It waits for nobody, and has no error.
pub fn join<D: Device>(table: &Table<D>, first: Pass<D>, second: Pass<D>) -> (Pass<D>, Pass<D>)
    requires ready { said.AreTwoReady (said.opening D.Device) table.now.table.shared.key table.now.table.shared.table_id first.seat.table_id
        second.seat.table_id first.seat.me second.seat.me }
    ensures met { said.HaveMet (said.opening D.Device) first.seat.me second.seat.me result.0.seat.me result.1.seat.me }
    ensures first { said.StaysReady (said.opening D.Device) table.now.table.shared.key table.now.table.shared.table_id first.seat.table_id
        result.0.seat.table_id first.seat.me result.0.seat.me }
    ensures second { said.StaysReady (said.opening D.Device) table.now.table.shared.key table.now.table.shared.table_id second.seat.table_id
        result.1.seat.table_id second.seat.me result.1.seat.me }
{
    law_threads::join(table, first, second)
}

/// If two sessions of one table have met, each later read of the one gives its key's value after some beginning of the history that holds what the other
/// had seen before. So does one that has to wait, and that a poll answers: its call is behind the meeting. What the other was told as done is among that.
/// So a session reads what another was told done, or something newer.
pub fn law_of_meetings<K>()
    ensures { (at : K → said.World) → said.ReadsWhatTheOtherSaw at }
{
    law_threads::<K>();
}

/// Frees a table that no thread shares any more. The device stays with the keeper's thread; what no commit has put on it is lost.
pub fn close<D: Device>(table: Table<D>) {
    table.close();
}
