//! What no clause says: that the calls come in a row, and bytes written by hand.
use fkv_base::Fault;
use fkv_disk::{Device, MemDisk};
use fkv_manifest::{GateWrites, NextCall, WriteAnswer, put_slot};
use std::alloc::Global;
use std::process::Abort;
use std::test::Fail;

// The bytes of a slot of this commit: nothing of it counts here but the gate, the number and that the rest is as written.
fn slot(number: u8) -> [u8; 512] {
    let mut bytes = [number; 512];
    bytes[0] = 165;
    bytes[8] = number;
    for zero in 9..16 {
        bytes[zero] = 0;
    }
    bytes
}

// An image whose slot 0 is that of commit 0, and whose slot 1 has an open gate before the body of this commit.
fn image(alloc: Global, number: u8) -> Result<Vec<u8>, Fault> {
    let mut bytes = vec![in alloc; 7u8; 512]?;
    bytes.extend_from_slice(&slot(0))?;
    bytes.extend_from_slice(&slot(number))?;
    bytes.resize(1600, 9)?;
    Ok(bytes)
}

// A device with the image before commit 3.
fn device(alloc: Global) -> Result<MemDisk, Fault> {
    MemDisk::from_bytes(alloc, image(alloc, 1)?)
}

// Makes the calls that the machine tells, and tells it that each succeeded.
fn walk<D: Device>(d: &mut D, gate: &mut GateWrites) -> Result<(), Fault> {
    for _ in 0..6u64 {
        match gate.next_call() {
            Some(NextCall::Writes(at, bytes)) => d.write(at, bytes)?,
            Some(NextCall::Syncs) => d.sync()?,
            None => return Ok(()),
        }
        gate.went(true);
    }
    Ok(())
}

fn is_put(rt: &impl Abort, alloc: Global) -> Result<(), Fault> {
    let mut disk = device(alloc)?;
    put_slot(&mut disk, 1024, 1, slot(3), true)?;
    assert!(rt; disk.bytes() == image(alloc, 3)?.as_slice());
    Ok(())
}

fn is_walked(rt: &impl Abort, alloc: Global) -> Result<(), Fault> {
    let mut disk = device(alloc)?;
    let mut gate = GateWrites::new(1024, 1, slot(3), true);
    walk(&mut disk, &mut gate)?;
    assert!(rt; gate.answer() == WriteAnswer::Written);
    assert!(rt; disk.bytes() == image(alloc, 3)?.as_slice());
    Ok(())
}

// Behind a call that failed none comes.
fn is_broken(rt: &impl Abort) {
    let mut broken = GateWrites::new(1024, 1, slot(3), false);
    broken.went(false);
    assert!(rt; broken.answer() == WriteAnswer::Broken(Fault::Device));
    assert!(rt; broken.next_call().is_none());
}

#[test]
fn a_slot_is_put_in_one_go_or_call_by_call(rt: HostRuntime) -> Result<(), Fail> {
    is_put(&rt, rt.alloc())?;
    is_walked(&rt, rt.alloc())?;
    is_broken(&rt);
    Ok(())
}
