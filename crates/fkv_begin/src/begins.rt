//! Where a log begins.
ghost use Rattle.std.specs.Prelude.{◌≡◌, ◌≤◌};
ghost use Rattle.fkv_begin.specs.Begin.{from_or_none};

use fkv_base::Addr;

/// The address, or 0 where it lies below the one at which the log begins. What lay there was given back, so an address leads
/// nowhere then, wherever it stands.
#[tactic(auto, unfolding(crate::specs::Begin::from_or_none))]
pub fn from_or_none(begin: Addr, addr: Addr) -> Addr
    ensures place { result.0 ≡ from_or_none begin.0 addr.0 }
    ensures no_higher { result.0 ≤ addr.0 }
{
    if addr.0 < begin.0 { Addr(0) } else { addr }
}
