//! What holds of the log, over every list of events and for all addresses.
ghost use Rattle.std.specs.Prelude.{ℕ, List, ◌≤◌};
ghost use Rattle.fkv_log.specs.Reserved.{TailEvent, IsOpened, opening, tail_run, tail_of, limit_of, RiseTo, AreReservedOnce, ReservesOrStays};
ghost use Rattle.fkv_log.specs.Records.{AreOpenRecordsApart, AreRecordsInFrames};
ghost use Rattle.fkv_log.specs.Written.{AreWritten, AreInvalidated, FillsInOrder};
ghost use Rattle.fkv_log.specs.Loading.{LoadsInOrder};
ghost use Rattle.fkv_log.specs.Shifting.{ShiftsBegin, ShiftsKeepTail};
ghost use Rattle.fkv_log.specs.Turning.{TurnsLastPage, TurnsOpeningAlone};

use fkv_frames::law_places_of_open_pages;

/// Whatever the order of the steps of all that reserve addresses, and whatever others do to the words as long as nobody
/// lowers the tail or the limit, or moves the tail past the limit: no address is reserved twice. Each is below the tail and
/// above all that were reserved before it, and the tail is never past the limit.
pub fn law_reserved_once()
    ensures once { (room actors : ℕ) (words : List ℕ) (events : List TailEvent) → IsOpened words
        → AreReservedOnce (tail_run (opening room actors words) events).reserved }
    ensures rising { (room actors : ℕ) (words : List ℕ) (events : List TailEvent) → IsOpened words
        → RiseTo (tail_of words) (tail_of (tail_run (opening room actors words) events).now.words) (tail_run (opening room actors words) events).reserved }
    ensures below { (room actors : ℕ) (words : List ℕ) (events : List TailEvent) → IsOpened words
        → tail_of (tail_run (opening room actors words) events).now.words ≤ limit_of (tail_run (opening room actors words) events).now.words }
{}

/// One step of who reserves an address: it reserves that of the tail and moves the tail up by one, or it reserves none and
/// changes no word.
pub fn law_reserve_step()
    ensures { ReservesOrStays }
{}

/// Two records at open addresses have no word in common, and a record's words are where its place in the frames says.
pub fn law_records_of_open_pages()
    ensures apart { AreOpenRecordsApart }
    ensures in_frames { AreRecordsInFrames }
{
    law_places_of_open_pages();
}

/// A fill from its start to its rest, by its own tables and with nobody between: the record has its header, its key and
/// its value at its address then, and no other word has changed. An invalidation leaves the record an invalid header in
/// place of its header, and changes nothing else.
pub fn law_records_are_written()
    ensures written { AreWritten }
    ensures invalidated { AreInvalidated }
{}

/// In which order a fill stores a record's three words, and a load asks for them and tells them; and worked by hand,
/// which pages a turn opens.
pub fn law_of_a_record_and_a_page()
    ensures order { FillsInOrder }
    ensures loads { LoadsInOrder }
    ensures last_page { TurnsLastPage }
{}

/// Whatever it is replied, a turn that opens only asks for the limit and the closed offset alone, and so it never moves the
/// head. A shift tells the tail that it loaded, however it ends.
pub fn law_of_a_turn_and_a_shift()
    ensures opens_alone { TurnsOpeningAlone }
    ensures begins { ShiftsBegin }
    ensures keeps_tail { ShiftsKeepTail }
{}
