//! The laws of histories. These functions do nothing: what they promise holds of every map and history.
ghost use Rattle.fkv_map.specs.Laws.{ContentOfAppend, LegalOfAppend, ContentByKey, LegalByKey, ContentOfOneMore, LegalOfOneMore, LegalOfFirsts, LegalOfKept, KeepIsRead};
ghost use Rattle.fkv_map.specs.Laws.{KeptOfLastSerials, KeptOfKept, WholeUpToPoints, WholeOfEachOnce, EachOnceOfOneMore, WholeOfLives, KeptOfLives};

/// The content of two histories, one after the other, is the content of the later from the content of the earlier.
pub fn law_content_append()
    ensures { ContentOfAppend }
{}

/// Two histories, one after the other, are legal where the earlier is and the later is from the earlier's content.
pub fn law_legal_append()
    ensures { LegalOfAppend }
{}

/// A key's value after a history comes of the entries on that key alone, and a history is legal where for each key the
/// entries on it are.
pub fn law_by_key()
    ensures content { ContentByKey }
    ensures legal { LegalByKey }
{}

/// One more entry changes the value of its own key alone, and is legal where it replies what that value gives.
pub fn law_one_more()
    ensures content { ContentOfOneMore }
    ensures legal { LegalOfOneMore }
{}

/// Entries that are, for each key, the first of a legal history's entries on it are a legal history; and so is what
/// points keep, if on no key they keep an entry after one that they don't.
pub fn law_legal_firsts()
    ensures firsts { LegalOfFirsts }
    ensures kept { LegalOfKept }
{}

/// A keep leaves each map as it is, and replies what a read does.
pub fn law_keep()
    ensures { KeepIsRead }
{}

/// Where each session's point is its last serial, the whole history is kept.
pub fn law_kept_whole()
    ensures { KeptOfLastSerials }
{}

/// What was kept is kept again by the same points.
pub fn law_kept_again()
    ensures { KeptOfKept }
{}

/// What points keep is whole exactly where the history has each session's serials above the opening's point, up to its
/// point, once, and none at or below the opening's.
pub fn law_whole_up_to_points()
    ensures { WholeUpToPoints }
{}

/// What points keep of a history with each serial once is whole, if they are at most the last serials or the opening's
/// points; such a history stays one with its session's next serial.
pub fn law_each_once()
    ensures whole { WholeOfEachOnce }
    ensures more { EachOnceOfOneMore }
{}

/// Where a life opened at the points of the one before, and no point fell, what the two kept, one after the other, is
/// whole from the first opening to the last points, and those points keep all of it.
pub fn law_lives_follow()
    ensures whole { WholeOfLives }
    ensures kept { KeptOfLives }
{}
