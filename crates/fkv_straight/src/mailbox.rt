//! A read whose record lies on the device alone, straight: its call asks for the record by the session's mailbox, and a poll takes it from there.
ghost use Rattle.std.specs.Prelude.{◌≡◌, ◌≤◌, IfSome, IfNone, true, false};
ghost use Rattle.fkv_map.specs.declared.operations.Call.{Call};
ghost use Rattle.fkv_map.specs.declared.operations.Call.TheVariants as call;
ghost use Rattle.fkv_ops.specs.Requests.{is_read};
ghost use Rattle.fkv_plane.specs.declared.asks.Ask.TheVariants.{Done};
ghost use Rattle.fkv_pending.specs.declared.mailing.Mailing.TheVariants.{LoadsHeader, StoresAddress};
ghost use Rattle.fkv_session.specs.Alike.{lasting};
ghost use Rattle.fkv_session.specs.Sessions.{SessionState, is_busy, session_ask};
ghost use Rattle.fkv_straight.specs.Course.{GoesBy, course_of};
ghost use Rattle.fkv_straight.specs.Mailbox.{HasTaken, IsAsking, IsSought, Looks, MayLook, PutsOn};
ghost use Rattle.fkv_straight.specs.Standing.{IsCaughtUp};
ghost use Rattle.fkv_straight.specs.declared.going.Going.{Going};

use crate::lines::Line;
use crate::words::{header_said, is_read};
use fkv_base::{Key, MAX_PENDING};
use fkv_map::{Call, Op};
use fkv_ops::{DiskRecord, HeaderSaid, value_of_word};
use fkv_pending::{MailRecord, PendingRequest, RequestName, Ticket};
use fkv_plane::SessionWord;
use fkv_session::{Session, Told};

/// The states of a mailbox: nothing is in it, an address, and the record that lies there.
const EMPTY: u64 = 0;

const ASKED: u64 = 1;

const READY: u64 = 2;

/// Puts the address of this record into the mailbox, if that is empty. Whether it was.
#[inline(always)]
fn put<L: Line>(line: &mut L, machine: &Session, _op: Op, sought: DiskRecord) -> bool
    requires seat { machine.now.seat ≡ L.seat line.old }
    requires at { (s : SessionState) × IsSought (course_of (L.seat line.old) s _op (call.Op _op)) sought (L.stands line.old) }
    requires room { L.kept line.old ≤ 48 }
    requires reads { is_read _op ≡ true }
    ensures seat { L.seat line.new ≡ L.seat line.old }
    ensures led { (start : L) (call : Call) → L.led start call line.old → L.led start call line.new }
    ensures asks { (s : SessionState) → IsSought (course_of (L.seat line.old) s _op (call.Op _op)) sought (L.stands line.old)
        → IsAsking (course_of (L.seat line.old) s _op (call.Op _op)) sought result (L.stands line.new) }
{
    let session = machine.number();
    let state_place = SessionWord::MailState.place(session);
    let state = line.load(state_place);
    if state != EMPTY {
        return false;
    }
    let address_place = SessionWord::MailAddress.place(session);
    let _ = line.store(address_place, sought.addr.0);
    let _ = line.store(state_place, ASKED);
    true
}

/// Ends the call of a read whose chain leaves memory at this record: asks for it if the mailbox is empty. The read waits. None if the list would be full
/// then: a session with a full list makes no straight call.
#[inline(never)]
pub(crate) fn ask_for<L: Line>(
    line: &mut L,
    machine: &mut Session,
    op: Op,
    sought: DiskRecord,
) -> Option<Told>
    requires seat { machine.old.seat ≡ L.seat line.old }
    requires at { (s : SessionState) × (lasting machine.old.state ≡ lasting s)
        × IsSought (course_of (L.seat line.old) s op (call.Op op)) sought (L.stands line.old) }
    requires room { L.kept line.old ≤ 48 }
    requires reads { is_read op ≡ true }
    ensures seat { L.seat line.new ≡ L.seat line.old }
    ensures led { (start : L) (call : Call) → L.led start call line.old → L.led start call line.new }
    ensures machine { machine.new.seat ≡ machine.old.seat }
    ensures goes_by { (its : Going) → GoesBy machine.old.seat machine.old.state its → GoesBy machine.new.seat machine.new.state its }
    ensures ended { IfSome result (λ told. (Done told ≡ session_ask (L.seat line.old) (L.stands line.new)) × IsCaughtUp machine.new.state (L.stands line.new)) }
    ensures stopped { IfNone result (machine.new ≡ machine.old) }
{
    if machine.pending() >= MAX_PENDING - 1 {
        return None;
    }
    let has_asked = put(line, machine, op, sought);
    let ticket = machine.take_pending_read(op, sought, has_asked);
    Some(Told::PendingRead(ticket))
}

/// A read that alone waits, and has asked for this record by the mailbox.
#[derive(Clone, Copy)]
pub(crate) struct Asker {
    pub pending: PendingRequest,
    pub ticket: Ticket,
    pub sought: DiskRecord,
}

/// The read that a poll may look into the mailbox for straight, if there is one: it alone waits, and has asked there.
pub(crate) fn asking_read(machine: &Session) -> Option<Asker>
    ensures { IfSome result (λ its. MayLook machine.now.state its) }
{
    let only = machine.only_request();
    let Some(pending) = only else {
        return None;
    };
    let RequestName::Read(ticket) = pending.name else {
        return None;
    };
    let Some(sought) = pending.sought else {
        return None;
    };
    let reads = is_read(pending.request.op);
    if !reads || !pending.has_asked {
        return None;
    }
    let floor = machine.floor();
    if pending.request.floor.0 > floor.0 {
        return None;
    }
    let awake = machine.is_awake();
    let orphaned = machine.is_orphaned();
    if !awake || orphaned {
        return None;
    }
    Some(Asker {
        pending,
        ticket,
        sought,
    })
}

/// Takes the record from the mailbox, where it is ready: its three words, and the mailbox is empty again.
#[inline(always)]
fn take_record<L: Line>(line: &mut L, machine: &Session, its: Asker) -> MailRecord
    requires seat { machine.now.seat ≡ L.seat line.old }
    requires at { (s : SessionState) × Looks (L.seat line.old) s its.pending LoadsHeader (L.stands line.old) }
    requires room { L.kept line.old ≤ 1 }
    ensures seat { L.seat line.new ≡ L.seat line.old }
    ensures led { (start : L) (call : Call) → L.led start call line.old → L.led start call line.new }
    ensures kept { L.kept line.new ≤ 5 }
    ensures taken { (s : SessionState) → Looks (L.seat line.old) s its.pending LoadsHeader (L.stands line.old)
        → HasTaken (L.seat line.old) s its.pending result (L.stands line.new) }
{
    let session = machine.number();
    let header_place = SessionWord::MailHeader.place(session);
    let header = line.load(header_place);
    let key_place = SessionWord::MailKey.place(session);
    let key = line.load(key_place);
    let value_place = SessionWord::MailValue.place(session);
    let value = line.load(value_place);
    let state_place = SessionWord::MailState.place(session);
    let _ = line.store(state_place, EMPTY);
    MailRecord {
        header,
        key: Key(key),
        value,
    }
}

/// Asks for the record before the one that has come, whose key is another. The read waits for that.
#[inline(always)]
fn ask_on<L: Line>(line: &mut L, machine: &mut Session, its: Asker, before: DiskRecord) -> Told
    requires seat { machine.old.seat ≡ L.seat line.old }
    requires at { (s : SessionState) × (lasting machine.old.state ≡ lasting s)
        × PutsOn (L.seat line.old) s its.pending before (StoresAddress before.addr) (L.stands line.old) }
    requires may { MayLook machine.old.state its }
    requires room { L.kept line.old ≤ 5 }
    ensures seat { L.seat line.new ≡ L.seat line.old }
    ensures led { (start : L) (call : Call) → L.led start call line.old → L.led start call line.new }
    ensures machine { machine.new.seat ≡ machine.old.seat }
    ensures goes_by { (going : Going) → GoesBy machine.old.seat machine.old.state going → GoesBy machine.new.seat machine.new.state going }
    ensures told { Done result ≡ session_ask (L.seat line.old) (L.stands line.new) }
    ensures caught_up { IsCaughtUp machine.new.state (L.stands line.new) }
{
    let session = machine.number();
    let address_place = SessionWord::MailAddress.place(session);
    let _ = line.store(address_place, before.addr.0);
    let state_place = SessionWord::MailState.place(session);
    let _ = line.store(state_place, ASKED);
    let mut waits = its.pending;
    waits.sought = Some(before);
    machine.take_polled_on(waits);
    Told::Polled(1)
}

/// Goes on with a poll that has taken this record: the read is finished if the record is its key's, or the last of the chain. Else it asks for the record
/// before. None if the header is spoiled, as that of a record that is gone: the machine has to catch up with the line then.
#[inline(always)]
fn judge<L: Line>(
    line: &mut L,
    machine: &mut Session,
    its: Asker,
    taken: MailRecord,
) -> Option<Told>
    requires seat { machine.old.seat ≡ L.seat line.old }
    requires at { (s : SessionState) × (lasting machine.old.state ≡ lasting s) × HasTaken (L.seat line.old) s its.pending taken (L.stands line.old) }
    requires may { MayLook machine.old.state its }
    requires room { L.kept line.old ≤ 5 }
    ensures seat { L.seat line.new ≡ L.seat line.old }
    ensures led { (start : L) (call : Call) → L.led start call line.old → L.led start call line.new }
    ensures machine { machine.new.seat ≡ machine.old.seat }
    ensures goes_by { (going : Going) → GoesBy machine.old.seat machine.old.state going → GoesBy machine.new.seat machine.new.state going }
    ensures ended { IfSome result (λ told. (Done told ≡ session_ask (L.seat line.old) (L.stands line.new)) × IsCaughtUp machine.new.state (L.stands line.new)) }
    ensures stopped { IfNone result (machine.new ≡ machine.old) }
{
    let said = header_said(taken.header);
    let HeaderSaid::Says(previous, _) = said else {
        return None;
    };
    let key = its.pending.request.op.key();
    if taken.key.0 == key.0 {
        let value = value_of_word(taken.value);
        machine.take_polled_read(its.ticket, value);
        return Some(Told::Polled(0));
    }
    let ends = its.pending.request.is_chain_end(previous);
    if ends {
        machine.take_polled_read(its.ticket, None);
        return Some(Told::Polled(0));
    }
    let before = DiskRecord {
        entry: its.sought.entry,
        addr: previous,
    };
    let told = ask_on(line, machine, its, before);
    Some(told)
}

/// Makes the steps of a poll, each the one that the machine's table asks for, up to its answer. None if it has met anything unusual: the machine has to
/// catch up with the line then.
#[inline(never)]
pub(crate) fn poll_asker<L: Line>(line: &mut L, machine: &mut Session, its: Asker) -> Option<Told>
    requires idle { is_busy (L.stands line.old).step ≡ false }
    requires seat { machine.old.seat ≡ L.seat line.old }
    requires alike { lasting machine.old.state ≡ lasting (L.stands line.old) }
    requires may { MayLook machine.old.state its }
    ensures seat { L.seat line.new ≡ L.seat line.old }
    ensures led { L.led line.old call.Poll line.new }
    ensures machine { machine.new.seat ≡ machine.old.seat }
    ensures goes_by { (going : Going) → GoesBy machine.old.seat machine.old.state going → GoesBy machine.new.seat machine.new.state going }
    ensures ended { IfSome result (λ told. (Done told ≡ session_ask (L.seat line.old) (L.stands line.new)) × IsCaughtUp machine.new.state (L.stands line.new)) }
    ensures stopped { IfNone result (machine.new ≡ machine.old) }
{
    let session = machine.number();
    let state_place = SessionWord::MailState.place(session);
    let state = line.first(Call::Poll, state_place);
    if state != READY {
        machine.take_unpolled();
        return Some(Told::Polled(1));
    }
    let taken = take_record(line, machine, its);
    judge(line, machine, its, taken)
}
