//! How far the reads of a life have come in the log, and what they are answered.
ghost use Rattle.law_order.specs.Reads.Laws as reads;

/// As a life begins no session has a read. Where all of its events until now are enabled in the log, its sessions know what they have to of
/// it and are told truly, and their tickets are apart, each answer of a read that the next event tells is the value that this read has taken by then;
/// and behind it the reads of each session have come as far in the log as its control state says.
pub fn law_world_reads()
    ensures begin { reads.BeginsWithNoRead }
    ensures answers { reads.AnswersWhatIsTaken }
    ensures goes { reads.GoesOnToRead }
{}
