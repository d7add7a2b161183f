//! Devices that can be crashed.
ghost use Rattle.std.specs.Prelude.{◌≡◌, ℕ, IfOk};
ghost use Rattle.fkv_playing.specs.Players.{IsArmed, PlayerState, waits_for_crash};
ghost use Rattle.fkv_playing.specs.declared.players.Waits.{Waits};
ghost use Rattle.fkv_runs.specs.Openings.{CrashesFrom, RefusesNoCall, crash_image};

use fkv_base::Fault;
use fkv_disk::{Fuse, MemDisk};
use fkv_playing::{Breaks, Player};

/// A device that can be made to fail, and crashed.
pub trait Crashes: Breaks + Drop {
    /// It is made to fail behind so many calls.
    ghost armed: { ℕ → Waits → PlayerState Self → PlayerState Self → Type 0 };

    /// An honest device with the image of a crash here, which refuses no call. Of the new one crashes go from that image on. The image is the one that this
    /// device foretells: each byte that isn't synced is set to this one. So it is taken of the calls that the device has met, and of no others.
    fn crash(self, torn: u8) -> Result<Self, Fault>
        ensures honest { IfOk result (λ next. Self.honest next) }
        ensures image { IfOk result (λ next. Self.seen next ≡ crash_image Self.expects self torn) }
        ensures allowed { IfOk result (λ next. Self.may_leave self (crash_image Self.expects self torn)) }
        ensures sound { IfOk result (RefusesNoCall Self.refuses) }
        ensures crashes { IfOk result (CrashesFrom Self.expects (crash_image Self.expects self torn)) };

    /// So many calls of the device pass from now on, and then each fails.
    fn fail_behind(player: &mut Player<Self>, count: u64)
        ensures { armed count Waits.Failure player.old player.new };

    /// So many calls of the device pass from now on, and at the next one a crash strikes.
    fn crash_behind(player: &mut Player<Self>, count: u64)
        ensures { armed count (waits_for_crash (Self.broken player.old.world.device)) player.old player.new };
}

impl Crashes for Fuse<MemDisk> {
    ghost armed = { λ count waits before after. IsArmed count waits before after };

    fn crash(self, torn: u8) -> Result<Fuse<MemDisk>, Fault> {
        Ok(Fuse::new(Fuse::<MemDisk>::crash(self, torn)?))
    }

    fn fail_behind(player: &mut Player<Fuse<MemDisk>>, count: u64) {
        player.fail_behind(count);
    }

    fn crash_behind(player: &mut Player<Fuse<MemDisk>>, count: u64) {
        player.crash_behind(count);
    }
}
