//! What updates know of the versions at their homes, by control state: a proof outline of tries by versions.
#![tactic(auto)]

ghost use Rattle.law_apart.specs.Apart.Laws.{CameStays, MarksAreTold, SharersPass, TriesBeginApart, TriesLeadApart};

/// What a try knows of the versions at its home. If it shares its latch, no record there is of a later version than its request, from where its walk has ended
/// or has to link an overflow bucket. If it makes a new record while its session goes on to the next version, it holds its latch alone or copies a fixed record
/// of its own version. It begins so, and each true reply leads it on so. One reply needs more: in prepare what is later lies at or above the head that its
/// session has seen, all of its home within a ring from there, and a search comes to link only from an empty home. So does the phase word that is loaded behind
/// a share: while it says prepare of the request's version, the home has no later one. One whose request came with its share
/// doesn't shift where its walk ends. Headers have marks alone. So it is given, beside an update, that no record is of a version past the
/// next one, and that none from the read-only offset on that its session has seen is more than one version older.
pub fn law_tries_apart()
    ensures begins { TriesBeginApart }
    ensures leads_on { TriesLeadApart }
    ensures passes { SharersPass }
    ensures marks { MarksAreTold }
    ensures came { CameStays }
{}
