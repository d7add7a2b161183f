//! What an image with a commit in force holds.
ghost use Rattle.std.specs.Prelude.{◌↔◌, ◌≤◌, ℕ, List, Option};
ghost use Rattle.fkv_base.specs.declared.numbers.Key.{Key};
ghost use Rattle.fkv_base.specs.declared.numbers.Value.{Value};
ghost use Rattle.fkv_chains.specs.Chains.{HasChains};
ghost use Rattle.fkv_chains.specs.Entries.{Counts};
ghost use Rattle.fkv_newest.specs.declared.newest_slots.Newest.{Newest};
ghost use Rattle.fkv_opening.specs.Faults.{HasCheckpoint, IsSound, log_of};
ghost use Rattle.fkv_opening.specs.Alike.{Agree, ShareLog};
ghost use Rattle.fkv_opening.specs.Opened.{IsStoreOf};
ghost use Rattle.fkv_opening.specs.declared.opened_store.Opened.{Opened};
ghost use Rattle.law_log.specs.Chains.{version_at};
ghost use Rattle.law_log.specs.Ghosts.{Log};
ghost use Rattle.law_log.specs.Trace.{IsIn};
ghost use Rattle.fkv_pairs.specs.Pairs.{HasValue, log_of_store};
ghost use Rattle.fkv_record.specs.declared.triples.Triple.{Triple};
ghost use Rattle.fkv_room.specs.Room.{HasRoom};
ghost use Rattle.fkv_scan.specs.Log as scan;
ghost use Rattle.fkv_scan.specs.Scan.{Has, HasScan};
ghost use Rattle.law_paper.specs.Paper.Forgotten.{AgreeFrom};
ghost use Rattle.law_paper.specs.Paper.Named.{HoldsCommit, HoldsStore};
ghost use Rattle.law_paper.specs.Paper.Old.{StandsOnOld};
ghost use Rattle.law_paper.specs.Paper.Opened.{StandsAsOpened, with_numbers};
ghost use Rattle.law_paper.specs.Paper.Slots.{HasSlots};
ghost use Rattle.law_paper.specs.Paper.Stands.{StandsOnPaper};
ghost use Rattle.law_paper.specs.Paper.Values.{ShowsUpto};

use fkv_record::{law_formats_apart, law_spellings_apart};

/// An image in which no stage of recovery finds a fault holds a store: its newest slot, the entries of its log, and the lost ranges in hand make one.
pub fn law_sound_is_store()
    ensures { (bytes : List ℕ) (n : Newest) (triples : List Triple) → HasCheckpoint bytes n triples → IsSound (log_of bytes n triples) → HoldsStore bytes }
{
    law_spellings_apart();
}

/// Bytes of records below the begin of an image's newest slot don't count. An image of any other bytes there agrees with it on what recovery reads. So the two hold the same
/// store, or have the same fault.
pub fn law_forgotten_agree()
    ensures { (image other : List ℕ) → AgreeFrom image other → Agree image other }
{
    law_spellings_apart();
    law_formats_apart();
}

/// Where two images that agree on what recovery reads hold a store, each key has the same value in both.
pub fn law_values_alike()
    ensures { (image other : List ℕ) (o : Opened) (store : IsStoreOf image o) (its : IsStoreOf other o) → Agree image other → (key : Key) (value : Value) → HasValue (log_of_store image o store) key value ↔ HasValue (log_of_store other o its) key value }
{
    law_spellings_apart();
    law_formats_apart();
}

/// A commit is in force that uses a checkpoint of the same life. Then recovery finds no fault in the scan and in the chains. What counts is what the log has
/// from the commit's begin on, of versions up to the commit's. Each key has the value that the log shows of these versions, since for these it does without
/// the records below that begin. If each home has a slot of the live index, recovery's index has
/// room for all. So an image whose newest slot names the commit has no fault, and holds a store. Any store that it holds is of that commit, with its points and these values.
pub fn law_paper_is_sound()
    ensures scan { (home : ℕ → ℕ) (image : scan.Log) (g : Log) → StandsOnPaper home image g → HasScan image }
    ensures chains { (home : ℕ → ℕ) (image : scan.Log) (g : Log) → StandsOnPaper home image g → HasChains image }
    ensures room { (home : ℕ → ℕ) (image : scan.Log) (g : Log) → StandsOnPaper home image g → HasSlots image g → HasRoom image }
    ensures counts { (home : ℕ → ℕ) (image : scan.Log) (g : Log) (h a : ℕ) → StandsOnPaper home image g → Has (Counts image h) a ↔ (IsIn a (g.chains h) × (version_at (g.cells a) ≤ image.version) × (image.begin ≤ a)) }
    ensures shows { (home : ℕ → ℕ) (image : scan.Log) (g : Log) → StandsOnPaper home image g → ShowsUpto home image g }
    ensures named { (home : ℕ → ℕ) (bytes : List ℕ) (n : Newest) (triples : List Triple) (g : Log) → HasCheckpoint bytes n triples → StandsOnPaper home (log_of bytes n triples) g → HasSlots (log_of bytes n triples) g → HoldsCommit home bytes n g }
{
    law_spellings_apart();
    law_formats_apart();
}

/// The same holds of a commit that uses the checkpoint with which the store was opened. Recovery meets again what the opening's recovery met, and then what
/// this life has written; the lost ranges lose just what the opening left out.
pub fn law_old_paper_is_sound()
    ensures scan { (home : ℕ → ℕ) (was image : scan.Log) (g : Log) → StandsOnOld home was image g → HasScan image }
    ensures chains { (home : ℕ → ℕ) (was image : scan.Log) (g : Log) → StandsOnOld home was image g → HasChains image }
    ensures room { (home : ℕ → ℕ) (was image : scan.Log) (g : Log) → StandsOnOld home was image g → HasSlots image g → HasRoom image }
    ensures counts { (home : ℕ → ℕ) (was image : scan.Log) (g : Log) (h a : ℕ) → StandsOnOld home was image g → Has (Counts image h) a ↔ (IsIn a (g.chains h) × (version_at (g.cells a) ≤ image.version)) }
    ensures shows { (home : ℕ → ℕ) (was image : scan.Log) (g : Log) → StandsOnOld home was image g → ShowsUpto home image g }
    ensures named { (home : ℕ → ℕ) (was : scan.Log) (bytes : List ℕ) (n : Newest) (triples : List Triple) (g : Log) → HasCheckpoint bytes n triples → StandsOnOld home was (log_of bytes n triples) g → HasSlots (log_of bytes n triples) g → HoldsCommit home bytes n g }
{
    law_spellings_apart();
    law_formats_apart();
}

/// While the commit with which the store was opened is in force, an image that agrees with the opened bytes on what recovery reads has no fault, and holds
/// a store. Any store that it holds is of that commit, with the values that the log shows of versions up to the commit's.
pub fn law_opened_paper_is_sound()
    ensures { (home : ℕ → ℕ) (bytes image : List ℕ) (o : Opened) (store : IsStoreOf bytes o) (g : Log) → Agree bytes image → StandsAsOpened home (log_of_store bytes o store) g → HoldsCommit home image store.newest g }
{
    law_spellings_apart();
    law_formats_apart();
}

/// The same holds of each image that has that commit's slot as its newest one, the triples of its checkpoint, and its records, whatever the open slots name:
/// so it does while the first commit of a life is being written.
pub fn law_kept_paper_is_sound()
    ensures { (home : ℕ → ℕ) (bytes image : List ℕ) (o : Opened) (store : IsStoreOf bytes o) (numbers : Option ℕ × Option ℕ) (g : Log) → HasCheckpoint image (with_numbers store.newest numbers) store.triples → ShareLog store.newest bytes image → StandsAsOpened home (log_of_store bytes o store) g → HoldsCommit home image (with_numbers store.newest numbers) g }
{
    law_spellings_apart();
    law_formats_apart();
}
