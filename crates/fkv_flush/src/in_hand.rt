//! What a flush writes are the words of its records.
ghost use Rattle.fkv_flush.specs.InHand.{LoadsRecords, LoadsNextPart};

/// Whatever words the records have: a flush whose replies are those words has in hand the bytes of just the words that it
/// loaded, record by record, and writes those of all records of a part, part after part.
pub fn law_records_in_hand()
    ensures records { LoadsRecords }
    ensures parts { LoadsNextPart }
{}
