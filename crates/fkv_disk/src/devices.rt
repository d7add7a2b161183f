//! The medium that a store lies on, as the layers above see it.
ghost use Rattle.std.specs.Prelude.{◌≡◌, ◌≤◌, ◌↔◌, List, ℕ, Bool, length, is_ok, OnOk};
ghost use Rattle.fkv_disk.specs.Bytes.{bytes_at, AreBytes};
ghost use Rattle.fkv_disk.specs.Device.{Writes, LeavesNoMore, LeavesTorn, LeavesOnly, Elapses, HasCause, MakesCalls};
ghost use Rattle.fkv_disk.specs.Kinds.{Kind, Reading, Writing, Syncing, Foretold, after_kind};

use fkv_base::Fault;

/// Bytes at offsets from 0 on, with an end past which each byte reads as 0.
///
/// A device either claims to be honest or claims nothing. Of an honest one three things are known: what it
/// reads as, what a crash now may leave, and what a crash at some moment since a time may have left. Each call
/// says what it makes of them. These are claims and no facts about a disk: that a disk keeps them is the premise
/// of who uses it.
///
/// Every call may be refused with `Fault::Device`, and with nothing else. Then `failures` rose in that call.
///
/// Every device counts calls: what it says of the calls to come moves on by one with each. It also notes each: what it
/// says of itself moves on by the call as it was made, with place, bytes and outcome. So whoever tells how far that
/// moved has told which calls were made. Of a device whose crash can be taken, this is what the crash takes.
pub trait Device {
    /// The premise: what is read is what was last written, and a crash leaves no more than is said here.
    ghost honest: { Self → Type 0 };

    /// The bytes that reads give.
    ghost seen: { Self → List ℕ };

    /// What a crash at this moment may leave.
    ghost may_leave: { Self → List ℕ → Type 0 };

    /// The moment, as a number that doesn't fall.
    ghost moment: { Self → ℕ };

    /// What a crash at some moment from that one on may have left, during a call or between two.
    ghost left_since: { Self → ℕ → List ℕ → Type 0 };

    /// How many calls have failed.
    ghost failed: { Self → ℕ };

    /// Which of the calls to come it says that it refuses, the next one being number 0. Of a call that it doesn't
    /// name it says nothing.
    ghost refuses: { Self → ℕ → Bool };

    /// What it says of itself once these calls have come, the next one first: anything, and for most devices nothing.
    ghost expects: { Self → List Kind → Foretold };

    /// Fills `into` with the bytes from offset `at` on. Those past the end are 0. After a refusal `into` holds
    /// anything.
    fn read(&mut self, at: u64, into: &mut [u8]) -> Result<(), Fault>
        ensures honest { honest self.old ↔ honest self.new }
        ensures bytes { honest self.old → OnOk result (into.new ≡ bytes_at (seen self.old) at (length into.old)) }
        ensures seen { honest self.old → seen self.new ≡ seen self.old }
        ensures crash { honest self.old → LeavesNoMore (may_leave self.old) (may_leave self.new) }
        ensures time { honest self.old → Elapses (moment self.old) (moment self.new) (left_since self.old) (left_since self.new) (may_leave self.new) }
        ensures cause { HasCause (failed self.old) (failed self.new) result }
        ensures counted { MakesCalls 1 (refuses self.old) (refuses self.new) result }
        ensures kind { expects self.new ≡ after_kind Reading (expects self.old) };

    /// Writes the bytes from offset `at` on, over what is there and past the end. Until a sync succeeds a crash
    /// may leave anything in the range, and past the old end; so too where the write is refused.
    fn write(&mut self, at: u64, bytes: &[u8]) -> Result<(), Fault>
        ensures honest { honest self.old ↔ honest self.new }
        ensures seen { honest self.old → Writes at bytes.now (is_ok result) (seen self.old) (seen self.new) }
        ensures crash { honest self.old → LeavesTorn at (length bytes.now) (may_leave self.old) (may_leave self.new) }
        ensures time { honest self.old → Elapses (moment self.old) (moment self.new) (left_since self.old) (left_since self.new) (may_leave self.new) }
        ensures cause { HasCause (failed self.old) (failed self.new) result }
        ensures counted { MakesCalls 1 (refuses self.old) (refuses self.new) result }
        ensures kind { expects self.new ≡ after_kind (Writing at bytes.now (is_ok result)) (expects self.old) };

    /// At `Ok` a crash leaves just what is read. A refused sync changes nothing here; of a real disk nobody knows
    /// what it has left, so a store makes no call after one.
    fn sync(&mut self) -> Result<(), Fault>
        ensures honest { honest self.old ↔ honest self.new }
        ensures durable { honest self.old → OnOk result (LeavesOnly (seen self.old) (may_leave self.new)) }
        ensures seen { honest self.old → seen self.new ≡ seen self.old }
        ensures crash { honest self.old → LeavesNoMore (may_leave self.old) (may_leave self.new) }
        ensures time { honest self.old → Elapses (moment self.old) (moment self.new) (left_since self.old) (left_since self.new) (may_leave self.new) }
        ensures cause { HasCause (failed self.old) (failed self.new) result }
        ensures counted { MakesCalls 1 (refuses self.old) (refuses self.new) result }
        ensures kind { expects self.new ≡ after_kind (Syncing (is_ok result)) (expects self.old) };

    /// How many calls have failed so far. At 2^64 - 1 it stays.
    fn failures(&self) -> u64
        ensures { result ≡ failed self.now };

    /// This moment is one of those since an earlier one.
    ghost counts_now: { (device : Self) (t : ℕ) (image : List ℕ) → honest device → t ≤ moment device → may_leave device image → left_since device t image };

    /// Since this moment there is no other.
    ghost only_now: { (device : Self) (image : List ℕ) → honest device → left_since device (moment device) image → may_leave device image };

    /// A crash may leave what is read.
    ghost leaves_seen: { (device : Self) → honest device → may_leave device (seen device) };

    /// What a crash leaves are bytes.
    ghost leaves_bytes: { (device : Self) (image : List ℕ) → honest device → may_leave device image → AreBytes image };
}
