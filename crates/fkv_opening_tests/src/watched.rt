//! A device that keeps where its calls stand, and recovery over it: what the contract of `recover` says of the kinds of its
//! calls, as a caller sees it.
ghost use Rattle.std.specs.Prelude.{◌≡◌, Bool};
ghost use Rattle.fkv_disk.specs.Kinds.{Reading, Syncing};
ghost use Rattle.fkv_opening_tests.specs.Watched.{stand_after, stand_foretold};

use fkv_base::Fault;
use fkv_disk::Device;
use fkv_opening::{Opened, recover};
use std::alloc::Global;

/// Where the calls of a device stand.
#[derive(Clone, Copy, Debug, PartialEq, Eq)]
pub enum Stand {
    /// None was made.
    NoCall,
    /// One sync was, then reads, and nothing else.
    OneSyncThenReads,
    /// Others were.
    Others,
}

/// Passes calls on to a device, and keeps where they stand.
#[derive(Drop)]
pub struct Watched<D: Device> {
    device: D,
    pub stand: Stand,
}

impl<D: Device> Watched<D> {
    /// The device, of which no call was made.
    pub fn new(device: D) -> Watched<D>
        ensures { result.stand ≡ Stand.NoCall }
    {
        Watched {
            device,
            stand: Stand::NoCall,
        }
    }
}

/// Behind a sync.
fn after_sync(stand: Stand) -> Stand
    ensures { (done : Bool) → result ≡ stand_after (Syncing done) stand }
{
    match stand {
        Stand::NoCall => Stand::OneSyncThenReads,
        _ => Stand::Others,
    }
}

/// Behind a read.
fn after_read(stand: Stand) -> Stand
    ensures { result ≡ stand_after Reading stand }
{
    match stand {
        Stand::OneSyncThenReads => Stand::OneSyncThenReads,
        _ => Stand::Others,
    }
}

impl<D: Device> Device for Watched<D> {
    ghost honest = { λ watched. D.Device.honest watched.device };

    ghost seen = { λ watched. D.Device.seen watched.device };

    ghost may_leave = { λ watched. D.Device.may_leave watched.device };

    ghost moment = { λ watched. D.Device.moment watched.device };

    ghost left_since = { λ watched. D.Device.left_since watched.device };

    ghost failed = { λ watched. D.Device.failed watched.device };

    ghost refuses = { λ watched. D.Device.refuses watched.device };

    ghost expects = { λ watched. stand_foretold watched.stand };

    ghost counts_now = { λ watched. D.Device.counts_now watched.device };

    ghost only_now = { λ watched. D.Device.only_now watched.device };

    ghost leaves_seen = { λ watched. D.Device.leaves_seen watched.device };

    ghost leaves_bytes = { λ watched. D.Device.leaves_bytes watched.device };

    fn read(&mut self, at: u64, into: &mut [u8]) -> Result<(), Fault> {
        self.stand = after_read(self.stand);
        self.device.read(at, into)
    }

    fn write(&mut self, at: u64, bytes: &[u8]) -> Result<(), Fault> {
        self.stand = Stand::Others;
        self.device.write(at, bytes)
    }

    fn sync(&mut self) -> Result<(), Fault> {
        self.stand = after_sync(self.stand);
        self.device.sync()
    }

    fn failures(&self) -> u64 {
        self.device.failures()
    }
}

/// Recovers the store of a device of which no call was made: whatever the answer, it was asked for one sync and then for reads.
pub fn recover_watched<D: Device>(alloc: Global, d: &mut Watched<D>) -> Result<Opened, Fault>
    requires { d.old.stand ≡ Stand.NoCall }
    ensures { d.new.stand ≡ Stand.OneSyncThenReads }
{
    recover(alloc, d)
}
