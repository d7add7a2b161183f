//! How many overflow buckets a bucket needs.
ghost use Rattle.std.specs.Prelude.{◌≡◌, ◌^◌, ◌<◌};
ghost use Rattle.fkv_entries.specs.Room.{needed};

/// How many overflow buckets a bucket with this many homes needs.
pub fn needed(homes: u64) -> u64
    requires { homes < 2 ^ 63 }
    ensures { result ≡ needed homes }
{
    ((homes + 6) / 7).saturating_sub(1)
}
