//! What holds of all spellings at once.
ghost use Rattle.fkv_words.specs.Fields.{SpellsApart};
ghost use Rattle.fkv_record.specs.declared.formats.Format.TheVariants.{First};
ghost use Rattle.fkv_record.specs.declared.manifest_slots.ManifestSlot.{ManifestSlot};
ghost use Rattle.fkv_record.specs.declared.slots.Slot.{Slot};
ghost use Rattle.fkv_record.specs.FirstFormat.{SaysSame};
ghost use Rattle.fkv_record.specs.Manifest.{SpelledOnce, is_held, manifest_bytes};
ghost use Rattle.std.specs.Prelude.{◌≡◌, Some, IsTrue};
ghost use Rattle.fkv_record.specs.Layout.{record_bytes, triple_bytes, slot_bytes, shape_bytes};

/// No two values of a type have one spelling.
pub fn law_spellings_apart()
    ensures records { SpellsApart record_bytes }
    ensures triples { SpellsApart triple_bytes }
    ensures slots { SpellsApart slot_bytes }
    ensures shapes { SpellsApart shape_bytes }
{}

/// No bytes are a manifest slot of two formats, nor two slots of one.
pub fn law_formats_apart()
    ensures { SpelledOnce manifest_bytes }
{}

/// The bytes of a slot in the first format are those that `read_slot` reads and `write_slot` writes.
pub fn law_first_format()
    ensures { (x : ManifestSlot) (y : Slot) → SaysSame x y → IsTrue (is_held First x)
        → manifest_bytes (First, x) ≡ Some (slot_bytes y) }
{}
