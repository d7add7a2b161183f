//! Logs that begin later.
use crate::draws::Draws;
use fkv_base::{Addr, Fault};
use fkv_disk::{Device, MemDisk};
use fkv_opening::Opened;
use fkv_record::area_place;

/// How far into a slot its begin stands, and its format.
const BEGIN_IN_SLOT: u64 = 456;

const FORMAT_IN_SLOT: u64 = 504;

/// Moves the begin of the newest slot up to an address that is drawn, at most that at which its scan starts. At the addresses below stand bytes then that
/// are drawn too. As long as the begin is 1 the slot stays as it is. Gives the begin.
pub(crate) fn move_begin(
    disk: &mut MemDisk,
    draws: &mut Draws,
    opened: &Opened,
) -> Result<Addr, Fault> {
    let (from, last) = (opened.begin.0, opened.checkpoint.first.0);
    let count = draws.below(last.saturating_sub(from).saturating_add(1));
    if count == 0 {
        return Ok(opened.begin);
    }
    let mut place = area_place(opened.shape, 2).saturating_add(from.saturating_mul(24));
    for _ in 0..count.saturating_mul(3) {
        disk.write(place, &draws.below(u64::MAX).to_le_bytes())?;
        place = place.saturating_add(8);
    }
    let begin = Addr(from.saturating_add(count));
    let slot: u64 = if opened.number.0 % 2 == 0 { 512 } else { 1024 };
    disk.write(slot.saturating_add(BEGIN_IN_SLOT), &begin.0.to_le_bytes())?;
    disk.write(slot.saturating_add(FORMAT_IN_SLOT), &4u64.to_le_bytes())?;
    disk.sync()?;
    Ok(begin)
}
