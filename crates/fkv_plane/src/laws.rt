//! What holds of all places at once.
ghost use Rattle.fkv_plane.specs.Places.{ArePlacesApart, ArePlacesBelow};

/// For each shape every word has a place of its own, below the count of words.
pub fn law_places_apart()
    ensures apart { ArePlacesApart }
    ensures below { ArePlacesBelow }
{}
