//! What stands for a record is the log's cell.
ghost use Rattle.law_refine.specs.Records.Laws as records;

use law_world::law_world_flushed_is_synced;

/// In every life that begins as the guard supposes, beside a log that has no record from the tail up: where the record whose value a session is
/// about to change in place is published, it lies below the tail. So where that is so before each event of the life, each of its steps is
/// permitted; and each record that the log's events change in place, beside a log that reserves nothing at first, is published until then.
pub fn law_records_published()
    ensures event { records.PublishedLiesBelowTail }
    ensures below { records.ChangesLieBelowTail }
    ensures permitted { records.StepsArePermitted }
    ensures meets { records.ChangesMeetPublished }
{}

/// Over every such life, from a log that reserves nothing and has no record from the tail up: where the record whose value a session is about to
/// change in place is published before each event, at every moment the words that stand for each published record since the opening show it. The
/// header says the record before it and its version, and the others its key and its value.
pub fn law_stands_show_log()
    ensures { records.WordsShowTheLog }
{}

/// So where each event of the log is enabled too, the header of each record that is decided says what became of it, from where the log began on: that of
/// a published record is valid, and that of one that was given up invalid. Each says the version of its record and where that leads; what was given up leads
/// below itself, so recovery passes over it.
pub fn law_headers_show_log()
    ensures { records.HeadersSayTheLog }
{}

/// At every moment of such a life an address below the tail that is no further than the ring below the limit has in its frame the words that stand
/// for it. So has each from the head that a session has seen up to the tail, while the session attempts a request in a call or in a poll; and
/// none of these lies below the closed offset of the opening. There each published record shows from an address on, if all from there on
/// did so as the life began; at or above the log's end of then none needs to.
pub fn law_frames_show_log()
    ensures stands { records.FramesHaveTheWords }
    ensures finds { records.AttemptsFindFrames }
    ensures above { records.AttemptsLieAboveTheStart }
    ensures shows { records.FramesShowTheRecords }
{}

/// Over every such life of a store that was just opened: at every moment the device, as the life has called it, reads at the place of each record
/// since the opening and below the flushed offset as the words that stand for it, and so does all that a crash leaves of it; older records stay as
/// they were. So each published record there shows on the device.
pub fn law_device_shows_log()
    ensures synced { records.DeviceHasTheWords }
    ensures shows { records.DeviceShowsTheRecords }
{
    law_world_flushed_is_synced();
}
