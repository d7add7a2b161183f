//! A device whose calls its caller makes.
ghost use Rattle.std.specs.Prelude.{◌≡◌, ◌+◌, ◌-◌, ◌≤◌, ◌^◌, ◌↔◌, ◌||◌, [], ◌∷◌, length, min, false, is_ok, is_some, None, Some, IfErr, OnOk, OnErr, if◌then◌else◌};
ghost use Rattle.fkv_disk.specs.Bytes.{AreBytes, byte_at, bytes_at};
ghost use Rattle.fkv_disk.specs.Calls.{Sync, Write, reads_as};
ghost use Rattle.fkv_disk.specs.Device.{Elapses, HasCause, LeavesNoMore, LeavesOnly, LeavesTorn, MakesCalls, Writes};
ghost use Rattle.fkv_disk.specs.Kinds.{Reading, Syncing, Writing, after_kind};
ghost use Rattle.fkv_posted.specs.Outcomes.{AlwaysBytes, AreOutcomes, Made, MayRemain, RemainsSince, calls_in};
ghost use Rattle.fkv_posted.specs.Posting.{has_read, has_synced, has_written, shown_foretold, shown_or, told_now, with_told};
ghost use Rattle.fkv_posted.specs.Remains.{counts_now, only_now, reads_remain, remains_bytes};

use crate::log::{Log, Note, Shown};
use crate::outcomes::{PIECE_BYTES, READ_BYTES, Told};
use fkv_base::Fault;
use fkv_disk::Device;

/// A medium whose calls its caller makes. While bytes are shown it reads as these, and they are synced: a store is opened so. From then
/// on a call is made in three steps. The caller learns which call comes, makes it, and tells how it has gone; the call then answers that.
///
/// It is honest as long as each read that was told gave what was last written: then the outcomes are those of a device. What a
/// crash leaves of the medium is the premise of who uses it, as with each device. Where nothing was told, where the outcome isn't that
/// of the call, and once a call has failed, a call is refused.
#[derive(Drop)]
pub struct Posted<'a> {
    shown: Option<&'a [u8]>,
    told: Option<Told>,
    failures: u64,
    log: Log,
    ghost is_shown: { shown_or shown (reads_as log.opened (calls_in log.outcomes)) ≡ reads_as log.opened (calls_in log.outcomes) },
    ghost are_bytes: { AlwaysBytes log.opened (calls_in log.outcomes) },
}

impl<'a> Posted<'a> {
    ghost use Rattle.fkv_posted.specs.Shows.{posted_failures, posted_opened, posted_outcomes, posted_shown, posted_told};

    /// A medium that is opened, with its bytes, all of them synced.
    pub fn new(bytes: &'a [u8]) -> Posted<'a>
        ensures opened { posted_opened result ≡ bytes.now }
        ensures shown { posted_shown result ≡ Some bytes.now }
        ensures outcomes { posted_outcomes result ≡ [] }
        ensures told { posted_told result ≡ None }
        ensures failures { posted_failures result ≡ 0 }
    {
        are_bytes(bytes);
        Posted {
            shown: Some(bytes),
            told: None,
            failures: 0,
            log: Log::new(&Shown { bytes }),
        }
    }

    /// The medium by itself: from now on its bytes are not shown any more.
    pub fn into_posted<'b>(self) -> Posted<'b>
        ensures opened { posted_opened result ≡ posted_opened self.entry }
        ensures shown { posted_shown result ≡ None }
        ensures outcomes { posted_outcomes result ≡ posted_outcomes self.entry }
        ensures told { posted_told result ≡ posted_told self.entry }
        ensures failures { posted_failures result ≡ posted_failures self.entry }
    {
        let Posted {
            told,
            failures,
            log,
            ..
        } = self;
        Posted {
            shown: None,
            told,
            failures,
            log,
        }
    }

    /// Tells how the next call has gone, in place of what was told before.
    pub fn tell(&mut self, told: Told)
        ensures told { posted_told self.new ≡ Some told }
        ensures shown { posted_shown self.new ≡ posted_shown self.old }
        ensures opened { posted_opened self.new ≡ posted_opened self.old }
        ensures outcomes { posted_outcomes self.new ≡ posted_outcomes self.old }
        ensures failures { posted_failures self.new ≡ posted_failures self.old }
    {
        self.told = Some(told);
    }
}

/// Each of them is a byte.
fn are_bytes(bytes: &[u8])
    ensures { AreBytes bytes.now }
{
    let _ = bytes;
}

/// Takes what was told of the call that is made now. A read counts from here on. Nothing is taken once a call has failed.
fn take(failures: u64, told: &mut Option<Told>, log: &mut Log) -> Option<Told>
    ensures told { told.new ≡ None }
    ensures value { result ≡ told_now failures told.old }
    ensures opened { log.new.opened ≡ log.old.opened }
    ensures outcomes { log.new.outcomes ≡ with_told failures told.old log.old.outcomes }
{
    let its = told.take();
    if failures > 0 {
        return None;
    }
    match &its {
        Some(Told::Read(at, bytes)) => *log = log.then(&Note::Gave(*at, bytes)),
        Some(Told::Piece(at, bytes)) => *log = log.then(&Note::Gave(*at, bytes)),
        _ => {}
    }
    its
}

/// How a call has ended. A failure is counted up to 2^64 - 1, and named.
fn ended(failures: &mut u64, done: bool) -> Result<(), Fault>
    ensures done { is_ok result ≡ done }
    ensures named { IfErr result (λ fault. fault ≡ Fault.Device) }
    ensures kept { OnOk result (failures.new ≡ failures.old) }
    ensures counted { OnErr result (failures.new ≡ min (failures.old + 1) (2 ^ 64 - 1)) }
    ensures later { failures.old ≤ failures.new }
{
    if done {
        Ok(())
    } else {
        *failures = failures.saturating_add(1);
        Err(Fault::Device)
    }
}

/// The byte that stands so far behind an offset, 0 past the end.
#[tactic(auto, using(fkv_disk::proofs::Shown::byte_at_past))]
fn byte_from(bytes: &[u8], at: u64, more: usize) -> u8
    ensures { result ≡ byte_at bytes.now (at + more) }
{
    match at.checked_add(more as u64) {
        Some(place) => bytes.get(place as usize).copied().unwrap_or(0),
        None => 0,
    }
}

/// Fills with the bytes from an offset on, those past the end 0.
fn fill(bytes: &[u8], at: u64, into: &mut [u8])
    ensures { into.new ≡ bytes_at bytes.now at (length into.old) }
{
    for more in 0..into.len() {
        into[more] = byte_from(bytes, at, more);
    }
}

impl<'a> Device for Posted<'a> {
    ghost use Rattle.fkv_posted.specs.Shows.{posted_failures, posted_opened, posted_outcomes, posted_shown, posted_told};

    ghost honest = { λ p. AreOutcomes p.log.opened (with_told p.failures p.told p.log.outcomes) };

    ghost seen = { λ p. reads_as p.log.opened (calls_in p.log.outcomes) };

    ghost may_leave = { λ p. MayRemain p.log.opened (calls_in p.log.outcomes) };

    ghost moment = { λ p. length (calls_in p.log.outcomes) };

    ghost left_since = { λ p. RemainsSince p.log.opened (calls_in p.log.outcomes) };

    ghost failed = { λ p. p.failures };

    ghost refuses = { λ _ _. false };

    ghost expects = { λ p. shown_foretold p.shown p.failures };

    ghost counts_now = { λ p t image claim le left. counts_now p.log.opened (calls_in p.log.outcomes) t image le left };

    ghost only_now = { λ p image claim left. only_now p.log.opened (calls_in p.log.outcomes) image left };

    ghost leaves_seen = { λ p claim. reads_remain p.log.opened (calls_in p.log.outcomes) p.are_bytes };

    ghost leaves_bytes = { λ p image claim left. remains_bytes p.log.opened (calls_in p.log.outcomes) image left };

    fn read(&mut self, at: u64, into: &mut [u8]) -> Result<(), Fault>
        ensures honest { ⟦<Posted<'a> as Device>⟧.honest self.old ↔ ⟦<Posted<'a> as Device>⟧.honest self.new }
        ensures bytes { ⟦<Posted<'a> as Device>⟧.honest self.old → OnOk result (into.new ≡ bytes_at (⟦<Posted<'a> as Device>⟧.seen self.old) at (length into.old)) }
        ensures seen { ⟦<Posted<'a> as Device>⟧.honest self.old → ⟦<Posted<'a> as Device>⟧.seen self.new ≡ ⟦<Posted<'a> as Device>⟧.seen self.old }
        ensures crash { ⟦<Posted<'a> as Device>⟧.honest self.old → LeavesNoMore (⟦<Posted<'a> as Device>⟧.may_leave self.old) (⟦<Posted<'a> as Device>⟧.may_leave self.new) }
        ensures time { ⟦<Posted<'a> as Device>⟧.honest self.old → Elapses (⟦<Posted<'a> as Device>⟧.moment self.old) (⟦<Posted<'a> as Device>⟧.moment self.new) (⟦<Posted<'a> as Device>⟧.left_since self.old) (⟦<Posted<'a> as Device>⟧.left_since self.new) (⟦<Posted<'a> as Device>⟧.may_leave self.new) }
        ensures cause { HasCause (⟦<Posted<'a> as Device>⟧.failed self.old) (⟦<Posted<'a> as Device>⟧.failed self.new) result }
        ensures counted { MakesCalls 1 (⟦<Posted<'a> as Device>⟧.refuses self.old) (⟦<Posted<'a> as Device>⟧.refuses self.new) result }
        ensures kind { ⟦<Posted<'a> as Device>⟧.expects self.new ≡ after_kind Reading (⟦<Posted<'a> as Device>⟧.expects self.old) }

        ensures told { is_ok result ≡ (is_some (posted_shown self.old) || has_read at (length into.old) (told_now (posted_failures self.old) (posted_told self.old))) }
        ensures outcomes { posted_outcomes self.new ≡ (if is_some (posted_shown self.old) then posted_outcomes self.old else with_told (posted_failures self.old) (posted_told self.old) (posted_outcomes self.old)) }
        ensures opened { posted_opened self.new ≡ posted_opened self.old }
    {
        if let Some(bytes) = self.shown {
            fill(bytes, at, into);
            return Ok(());
        }
        match take(self.failures, &mut self.told, &mut self.log) {
            Some(Told::Read(place, bytes)) if place == at && into.len() == READ_BYTES => {
                into.copy_from_slice(&bytes);
                Ok(())
            }
            Some(Told::Piece(place, bytes)) if place == at && into.len() == PIECE_BYTES => {
                into.copy_from_slice(&bytes);
                Ok(())
            }
            _ => ended(&mut self.failures, false),
        }
    }

    fn write(&mut self, at: u64, bytes: &[u8]) -> Result<(), Fault>
        ensures honest { ⟦<Posted<'a> as Device>⟧.honest self.old ↔ ⟦<Posted<'a> as Device>⟧.honest self.new }
        ensures seen { ⟦<Posted<'a> as Device>⟧.honest self.old → Writes at bytes.now (is_ok result) (⟦<Posted<'a> as Device>⟧.seen self.old) (⟦<Posted<'a> as Device>⟧.seen self.new) }
        ensures crash { ⟦<Posted<'a> as Device>⟧.honest self.old → LeavesTorn at (length bytes.now) (⟦<Posted<'a> as Device>⟧.may_leave self.old) (⟦<Posted<'a> as Device>⟧.may_leave self.new) }
        ensures time { ⟦<Posted<'a> as Device>⟧.honest self.old → Elapses (⟦<Posted<'a> as Device>⟧.moment self.old) (⟦<Posted<'a> as Device>⟧.moment self.new) (⟦<Posted<'a> as Device>⟧.left_since self.old) (⟦<Posted<'a> as Device>⟧.left_since self.new) (⟦<Posted<'a> as Device>⟧.may_leave self.new) }
        ensures cause { HasCause (⟦<Posted<'a> as Device>⟧.failed self.old) (⟦<Posted<'a> as Device>⟧.failed self.new) result }
        ensures counted { MakesCalls 1 (⟦<Posted<'a> as Device>⟧.refuses self.old) (⟦<Posted<'a> as Device>⟧.refuses self.new) result }
        ensures kind { ⟦<Posted<'a> as Device>⟧.expects self.new ≡ after_kind (Writing at bytes.now (is_ok result)) (⟦<Posted<'a> as Device>⟧.expects self.old) }

        ensures told { is_ok result ≡ has_written (told_now (posted_failures self.old) (posted_told self.old)) }
        ensures outcomes { posted_outcomes self.new ≡ Made (Write at bytes.now (is_ok result)) ∷ with_told (posted_failures self.old) (posted_told self.old) (posted_outcomes self.old) }
        ensures taken { posted_told self.new ≡ None }
        ensures opened { posted_opened self.new ≡ posted_opened self.old }
    {
        are_bytes(bytes);
        let told = take(self.failures, &mut self.told, &mut self.log);
        let done = matches!(told, Some(Told::Written));
        self.shown = None;
        self.log = self.log.then(&Note::Wrote(at, bytes, done));
        ended(&mut self.failures, done)
    }

    fn sync(&mut self) -> Result<(), Fault>
        ensures honest { ⟦<Posted<'a> as Device>⟧.honest self.old ↔ ⟦<Posted<'a> as Device>⟧.honest self.new }
        ensures durable { ⟦<Posted<'a> as Device>⟧.honest self.old → OnOk result (LeavesOnly (⟦<Posted<'a> as Device>⟧.seen self.old) (⟦<Posted<'a> as Device>⟧.may_leave self.new)) }
        ensures seen { ⟦<Posted<'a> as Device>⟧.honest self.old → ⟦<Posted<'a> as Device>⟧.seen self.new ≡ ⟦<Posted<'a> as Device>⟧.seen self.old }
        ensures crash { ⟦<Posted<'a> as Device>⟧.honest self.old → LeavesNoMore (⟦<Posted<'a> as Device>⟧.may_leave self.old) (⟦<Posted<'a> as Device>⟧.may_leave self.new) }
        ensures time { ⟦<Posted<'a> as Device>⟧.honest self.old → Elapses (⟦<Posted<'a> as Device>⟧.moment self.old) (⟦<Posted<'a> as Device>⟧.moment self.new) (⟦<Posted<'a> as Device>⟧.left_since self.old) (⟦<Posted<'a> as Device>⟧.left_since self.new) (⟦<Posted<'a> as Device>⟧.may_leave self.new) }
        ensures cause { HasCause (⟦<Posted<'a> as Device>⟧.failed self.old) (⟦<Posted<'a> as Device>⟧.failed self.new) result }
        ensures counted { MakesCalls 1 (⟦<Posted<'a> as Device>⟧.refuses self.old) (⟦<Posted<'a> as Device>⟧.refuses self.new) result }
        ensures kind { ⟦<Posted<'a> as Device>⟧.expects self.new ≡ after_kind (Syncing (is_ok result)) (⟦<Posted<'a> as Device>⟧.expects self.old) }

        ensures told { is_ok result ≡ (has_synced (told_now (posted_failures self.old) (posted_told self.old)) || is_some (posted_shown self.old)) }
        ensures outcomes { posted_outcomes self.new ≡ Made (Sync (is_ok result)) ∷ with_told (posted_failures self.old) (posted_told self.old) (posted_outcomes self.old) }
        ensures taken { posted_told self.new ≡ None }
        ensures opened { posted_opened self.new ≡ posted_opened self.old }
    {
        let told = take(self.failures, &mut self.told, &mut self.log);
        let done = matches!(told, Some(Told::Synced)) || self.shown.is_some();
        self.log = self.log.then(&Note::Synced(done));
        ended(&mut self.failures, done)
    }

    fn failures(&self) -> u64 {
        self.failures
    }
}
