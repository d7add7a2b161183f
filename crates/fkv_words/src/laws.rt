//! What holds of all words at once.
ghost use Rattle.fkv_words.specs.Fields.{SpellsApart};
ghost use Rattle.fkv_words.specs.Layout.{entry_word, tail_word, header_word, phase_word, wide_word, cut_word, PhasesAgree};

/// No two values of a type have one word.
pub fn law_words_apart()
    ensures entries { SpellsApart entry_word }
    ensures tails { SpellsApart tail_word }
    ensures headers { SpellsApart header_word }
    ensures phases { SpellsApart phase_word }
    ensures wide_phases { SpellsApart wide_word }
    ensures cuts { SpellsApart cut_word }
{}

/// The two words of a phase are one word, as long as its version fits in the narrow one.
pub fn law_phases_agree()
    ensures { PhasesAgree }
{}
