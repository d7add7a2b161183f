//! What holds of the places of all addresses at once.
ghost use Rattle.fkv_frames.specs.Open.{AreOpenPlacesApart, HaveOpenAddresses, AreOpenByPages, ArePlacesInFrames};

/// For each shape and limit: two open addresses have no word of the frames in common; every place of the frames is an
/// open address's, where the log is so long; and below a limit at the start of a page the open pages are the last ones,
/// as many as there are frames.
pub fn law_places_of_open_pages()
    ensures apart { AreOpenPlacesApart }
    ensures each { HaveOpenAddresses }
    ensures pages { AreOpenByPages }
{}

/// For each shape a record lies in its page's frame, as far from the frame's start as its address from the page's.
pub fn law_places_in_frames()
    ensures { ArePlacesInFrames }
{}
