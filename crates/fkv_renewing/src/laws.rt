//! Laws of renewed stores.
ghost use Rattle.std.specs.Prelude.{◌≡◌, ℕ, List};
ghost use Rattle.fkv_base.specs.declared.numbers.Key.{Key};
ghost use Rattle.fkv_base.specs.declared.numbers.Value.{Value};
ghost use Rattle.fkv_base.specs.declared.numbers.Serial.{Serial};
ghost use Rattle.fkv_base.specs.declared.shapes.Shape.{Shape};
ghost use Rattle.fkv_creating.specs.Long.{IsLong};
ghost use Rattle.fkv_newest.specs.declared.newest_slots.Newest.{Newest};
ghost use Rattle.fkv_newest.specs.Newest.{IsNewestOf};
ghost use Rattle.fkv_record.specs.declared.records.Record.{Record};
ghost use Rattle.fkv_scan.specs.Log.{Log};
ghost use Rattle.fkv_spread.specs.declared.keys.Keys.TheVariants.{AsTheyAre};
ghost use Rattle.fkv_opening.specs.Faults.{IsSound};
ghost use Rattle.fkv_pairs.specs.Pairs.{ArePairs};
ghost use Rattle.fkv_renewing.specs.Images.{AreStored, IsRenewed};
ghost use Rattle.fkv_renewing.specs.Laid.{AreLaid};
ghost use Rattle.fkv_renewing.specs.Logs.{IsRenewedLog};
ghost use Rattle.fkv_renewing.specs.Records.{AreRecords};
ghost use Rattle.fkv_renewing.specs.Renewed.{AreSomePairs, IsRenewal};
ghost use Rattle.fkv_renewing.specs.Room.{HasSlots};

use fkv_record::{law_formats_apart, law_spellings_apart};

/// Of a log with one record for each pair, behind an empty checkpoint, the pairs are these. No stage of recovery finds a fault in it where
/// the index has room for the homes.
pub fn law_renewed_log()
    ensures sound { (log : Log) (pairs : List (Key × Value)) (records : List Record) → IsRenewedLog log pairs records → HasSlots log.shape pairs → IsSound log }
    ensures pairs { (log : Log) (pairs : List (Key × Value)) (records : List Record) → IsRenewedLog log pairs records → AreSomePairs pairs → ArePairs log pairs }
{
    law_spellings_apart();
}

/// An image that tells a renewed slot, and in which the records of the pairs stand, is a renewed store's, where the index has room for the
/// homes. Recovery finds no fault in it, and whatever store it holds has these pairs, and for each session this point.
pub fn law_renewals()
    ensures { (image : List ℕ) (shape : Shape) (points : List Serial) (pairs : List (Key × Value)) (records : List Record) (n : Newest) → IsRenewed shape points pairs n → IsNewestOf image n → AreRecords shape.bucket_bits pairs records → AreStored image shape records → HasSlots shape pairs → IsLong image n.shape n.slot → AreSomePairs pairs → IsRenewal shape points pairs image }
{
    law_spellings_apart();
    law_formats_apart();
}

/// The pairs of a log are some store's: keys ascend, and none has the word of a deleted key. A log has one list of pairs. So what
/// `content` gives of an opened store can be renewed, and what it gives of the renewed one is the same list.
pub fn law_pairs()
    ensures some { (log : Log) (pairs : List (Key × Value)) → ArePairs log pairs → AreSomePairs pairs }
    ensures one { (log : Log) (pairs found : List (Key × Value)) → ArePairs log pairs → ArePairs log found → pairs ≡ found }
{}

/// A store's pairs whose keys lie as they are lie as they were.
pub fn law_laid()
    ensures { (pairs laid : List (Key × Value)) → AreSomePairs pairs → AreLaid AsTheyAre pairs laid → laid ≡ pairs }
{}
