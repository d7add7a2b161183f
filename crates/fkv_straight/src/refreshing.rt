//! A refresh, straight, where no request waits.
ghost use Rattle.std.specs.Prelude.{◌≡◌, ◌<◌, [], ℕ, true, false};
ghost use Rattle.fkv_map.specs.declared.operations.Call.{Call};
ghost use Rattle.fkv_map.specs.declared.operations.Call.TheVariants as call;
ghost use Rattle.fkv_plane.specs.declared.asks.Ask.TheVariants.{Done};
ghost use Rattle.fkv_session.specs.Alike.{lasting};
ghost use Rattle.fkv_session.specs.Sessions.{SessionState, is_busy, session_ask};
ghost use Rattle.fkv_straight.specs.Refreshes.{HasSeen, IsAtCut, IsAtEpoch};
ghost use Rattle.fkv_straight.specs.Standing.{IsCaughtUp};

use crate::lines::Line;
use fkv_base::Addr;
use fkv_epoch::Seen as LoadedValues;
use fkv_map::Call;
use fkv_ops::Seen;
use fkv_plane::{SessionWord, SharedWord};
use fkv_session::{Session, Told, cut_at, cut_of, seen_after};
use fkv_words::phase_said;

/// Loads the epoch that the session stores last, and what it goes by then.
#[inline(always)]
fn load<L: Line>(line: &mut L, before: Seen) -> (u64, Seen)
    requires idle { is_busy (L.stands line.old).step ≡ false }
    requires awake { (L.stands line.old).is_awake ≡ true }
    requires free { (L.stands line.old).requests ≡ [] }
    requires seen { (L.stands line.old).seen ≡ before }
    ensures seat { L.seat line.new ≡ L.seat line.old }
    ensures led { L.led line.old call.Refresh line.new }
    ensures kept { L.kept line.new ≡ 4 }
    ensures seen { HasSeen (L.seat line.old) (L.stands line.old) result.0 result.1 (L.stands line.new) }
{
    let epoch_place = SharedWord::Epoch.place();
    let epoch = line.first(Call::Refresh, epoch_place);
    let phase_place = SharedWord::Phase.place();
    let phase = line.load(phase_place);
    let read_only_place = SharedWord::ReadOnly.place();
    let read_only = line.load(read_only_place);
    let head_place = SharedWord::Head.place();
    let head = line.load(head_place);
    let values = LoadedValues {
        phase,
        read_only: Addr(read_only),
        head: Addr(head),
    };
    let said = phase_said(phase);
    let after = seen_after(before, values, said);
    (epoch, after)
}

/// Stores where the version before ends for the session, and that no update of it waits.
#[inline(never)]
fn end_version<L: Line>(line: &mut L, machine: &Session, after: Seen)
    requires seat { machine.now.seat ≡ L.seat line.old }
    requires at { (s : SessionState) × (epoch : ℕ) × (machine.now.state.serial ≡ s.serial) × IsAtCut s epoch after (L.stands line.old) }
    requires kept { L.kept line.old ≡ 4 }
    ensures seat { L.seat line.new ≡ L.seat line.old }
    ensures led { (start : L) (call : Call) → L.led start call line.old → L.led start call line.new }
    ensures kept { L.kept line.new ≡ 6 }
    ensures ends { (s : SessionState) (epoch : ℕ) → machine.now.state.serial ≡ s.serial → IsAtCut s epoch after (L.stands line.old)
        → IsAtEpoch s epoch after (L.stands line.new) }
{
    let session = machine.number();
    let serial = machine.serial();
    let before = after.version.0.saturating_sub(1);
    let cut_word = cut_of(before);
    let cut_place = cut_word.place(session);
    let cut = cut_at(serial.0, before);
    let _ = line.store(cut_place, cut);
    let owing_place = SessionWord::Owing.place(session);
    let _ = line.store(owing_place, 0);
}

/// Stores the session's epoch, last, and the machine goes by what was loaded.
#[inline(always)]
fn finish<L: Line>(line: &mut L, machine: &mut Session, epoch: u64, after: Seen) -> Told
    requires seat { machine.old.seat ≡ L.seat line.old }
    requires free { machine.old.state.requests ≡ [] }
    requires at { (s : SessionState) × (lasting machine.old.state ≡ lasting s) × IsAtEpoch s epoch after (L.stands line.old) }
    requires room { L.kept line.old < 64 }
    ensures seat { L.seat line.new ≡ L.seat line.old }
    ensures led { (start : L) (call : Call) → L.led start call line.old → L.led start call line.new }
    ensures machine { machine.new.seat ≡ machine.old.seat }
    ensures told { Done result ≡ session_ask (L.seat line.old) (L.stands line.new) }
    ensures caught_up { IsCaughtUp machine.new.state (L.stands line.new) }
{
    let session = machine.number();
    let epoch_place = SessionWord::Epoch.place(session);
    let _ = line.store(epoch_place, epoch);
    machine.take_seen(after);
    Told::Refreshed(after.phase, after.version)
}

/// Makes the steps of a refresh, each the one that the machine's table asks for, to its end. With no request that waits nothing unusual is met.
#[inline(always)]
pub(crate) fn refresh<L: Line>(line: &mut L, machine: &mut Session) -> Told
    requires idle { is_busy (L.stands line.old).step ≡ false }
    requires seat { machine.old.seat ≡ L.seat line.old }
    requires alike { lasting machine.old.state ≡ lasting (L.stands line.old) }
    requires awake { machine.old.state.is_awake ≡ true }
    requires free { machine.old.state.requests ≡ [] }
    ensures seat { L.seat line.new ≡ L.seat line.old }
    ensures led { L.led line.old call.Refresh line.new }
    ensures machine { machine.new.seat ≡ machine.old.seat }
    ensures told { Done result ≡ session_ask (L.seat line.old) (L.stands line.new) }
    ensures caught_up { IsCaughtUp machine.new.state (L.stands line.new) }
{
    let before = machine.seen();
    let (epoch, after) = load(line, before);
    if after.version.0 == before.version.0 {
        return finish(line, machine, epoch, after);
    }
    end_version(line, machine, after);
    finish(line, machine, epoch, after)
}
