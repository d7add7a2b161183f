//! What no clause says: that calls succeed, what a real file does, and bytes written by hand.
use fkv_base::Fault;
use fkv_disk::{
    Device, FileDisk, Fuse, FuseState, MemDisk, Once, PageSize, Pages, ReadAhead, make_file,
    open_file,
};
use std::alloc::Global;
use std::process::Abort;
use std::test::Fail;

fn is_written(rt: &impl Abort, disk: &mut MemDisk) -> Result<(), Fault> {
    disk.write(2, &[7, 8])?;
    disk.sync()?;
    assert!(rt; disk.write(u64::MAX, &[1]).is_err());
    assert!(rt; disk.failures() == 1);
    disk.write(0, &[6])?;
    disk.forget_synced()?;
    assert!(rt; disk.bytes() == [6, 0, 7, 8].as_slice());
    Ok(())
}

fn is_read(rt: &impl Abort, disk: &mut MemDisk) -> Result<(), Fault> {
    let mut read = [9; 4];
    disk.read(3, &mut read)?;
    assert!(rt; read == [8, 0, 0, 0]);
    Ok(())
}

fn memory_reads_back(rt: &impl Abort, alloc: Global) -> Result<(), Fault> {
    let mut disk = MemDisk::new(alloc);
    is_written(rt, &mut disk)?;
    is_read(rt, &mut MemDisk::from_bytes(alloc, disk.into_bytes())?)
}

// Two calls pass, and the third one blows the fuse.
fn is_blown(rt: &impl Abort, fuse: &mut Fuse<MemDisk>) -> Result<(), Fault> {
    fuse.write(0, &[5])?;
    fuse.arm(2);
    fuse.sync()?;
    fuse.forget_synced()?;
    fuse.write(1, &[6])?;
    assert!(rt; fuse.write(3, &[7, 8, 9]).is_err());
    Ok(())
}

fn tells_its_failure(rt: &impl Abort, fuse: &Fuse<MemDisk>) {
    assert!(rt; fuse.failures() == 1);
    assert!(rt; fuse.state() == FuseState::BlownAt(3, 3));
    assert!(rt; fuse.device().bytes() == [5, 6, 3, 4].as_slice());
}

fn a_fuse_tears_what_was_not_synced(rt: &impl Abort, alloc: Global) -> Result<(), Fault> {
    let opening = [1, 2, 3, 4].to_vec(alloc)?;
    let mut fuse = Fuse::new(MemDisk::from_bytes(alloc, opening)?);
    is_blown(rt, &mut fuse)?;
    tells_its_failure(rt, &fuse);
    let image = fuse.crash(165)?;
    assert!(rt; image.bytes() == [5, 165, 3, 165, 165, 165].as_slice());
    Ok(())
}

fn one_call_fails(rt: &impl Abort, once: &mut Once<MemDisk>) -> Result<(), Fault> {
    once.write(0, &[1])?;
    assert!(rt; once.write(0, &[2]).is_err());
    assert!(rt; once.device().bytes() == [1].as_slice());
    once.write(0, &[3])?;
    assert!(rt; once.failures() == 1);
    Ok(())
}

fn one_call_fails_alone(rt: &impl Abort, alloc: Global) -> Result<(), Fault> {
    let mut once = Once::new(MemDisk::new(alloc), 1);
    one_call_fails(rt, &mut once)?;
    let fuse = Fuse::new(once.into_device());
    assert!(rt; fuse.into_device().bytes() == [3].as_slice());
    Ok(())
}

type Ahead = ReadAhead<Fuse<MemDisk>>;

// A device of 5,000 bytes, which two reads may reach.
fn two_pages(alloc: Global) -> Result<Ahead, Fault> {
    let mut bytes = Vec::new(alloc);
    for i in 0..5000_u64 {
        bytes.push((i % 251) as u8)?;
    }
    let mut fuse = Fuse::new(MemDisk::from_bytes(alloc, bytes)?);
    fuse.arm(2);
    Ok(ReadAhead::new(fuse, Pages::new(alloc, PageSize::Kib4, 2)?))
}

fn all_is_read(rt: &impl Abort, ahead: &mut Ahead) -> Result<(), Fault> {
    let mut read = [9; 24];
    for i in 0..250 {
        ahead.read(20 * i, &mut read)?;
        let first = 20 * i % 251;
        assert!(rt; read[0] as u64 == first);
    }
    assert!(rt; read[19..] == [230, 0, 0, 0, 0]);
    assert!(rt; ahead.failures() == 0);
    assert!(rt; ahead.device().state() == FuseState::Armed(0));
    Ok(())
}

// A third read fails, and one of a page that is there doesn't.
fn a_third_read_fails(rt: &impl Abort, ahead: &mut Ahead) -> Result<(), Fault> {
    let mut read = [9; 24];
    assert!(rt; ahead.read(8192, &mut read).is_err());
    ahead.read(4100, &mut read)?;
    assert!(rt; read[0] == 84);
    assert!(rt; ahead.failures() == 2);
    Ok(())
}

fn each_page_is_read_once(rt: &impl Abort, alloc: Global) -> Result<(), Fault> {
    let mut ahead = two_pages(alloc)?;
    all_is_read(rt, &mut ahead)?;
    a_third_read_fails(rt, &mut ahead)
}

// These bytes are read from byte 4,093 on.
fn reads_back(
    rt: &impl Abort,
    ahead: &mut ReadAhead<MemDisk>,
    wanted: [u8; 6],
) -> Result<(), Fault> {
    let mut read = [9; 6];
    ahead.read(4093, &mut read)?;
    assert!(rt; read == wanted);
    Ok(())
}

// Nothing stands at the end of all places.
fn reads_nothing(rt: &impl Abort, ahead: &mut ReadAhead<MemDisk>) -> Result<(), Fault> {
    let mut read = [9; 6];
    ahead.read(u64::MAX - 2, &mut read)?;
    assert!(rt; read == [0; 6]);
    Ok(())
}

fn is_read_behind(rt: &impl Abort, ahead: &mut ReadAhead<MemDisk>) -> Result<(), Fault> {
    ahead.write(4094, &[1, 2, 3, 4])?;
    reads_back(rt, ahead, [0, 1, 2, 3, 4, 0])?;
    ahead.write(4096, &[7])?;
    ahead.sync()?;
    reads_back(rt, ahead, [0, 1, 2, 7, 4, 0])?;
    reads_nothing(rt, ahead)
}

fn a_write_is_read_behind_a_page(rt: &impl Abort, alloc: Global) -> Result<(), Fault> {
    let pages = Pages::new(alloc, PageSize::Kib4, 1)?;
    let mut ahead = ReadAhead::new(MemDisk::new(alloc), pages);
    is_read_behind(rt, &mut ahead)?;
    let disk = ahead.into_device();
    assert!(rt; disk.bytes().ends_with(&[0, 1, 2, 7, 4]));
    Ok(())
}

#[test]
fn devices_in_memory_read_back(rt: HostRuntime) -> Result<(), Fail> {
    memory_reads_back(&rt, rt.alloc())?;
    a_fuse_tears_what_was_not_synced(&rt, rt.alloc())?;
    one_call_fails_alone(&rt, rt.alloc())?;
    each_page_is_read_once(&rt, rt.alloc())?;
    a_write_is_read_behind_a_page(&rt, rt.alloc())?;
    Ok(())
}

// What is written to a new device is read.
fn takes<D: Device>(rt: &impl Abort, disk: &mut D) -> Result<(), Fault> {
    disk.write(1, &[7, 8])?;
    disk.sync()?;
    let mut read = [9; 5];
    disk.read(0, &mut read)?;
    assert!(rt; read == [0, 7, 8, 0, 0]);
    Ok(())
}

fn has<D: Device>(rt: &impl Abort, disk: &mut D) -> Result<(), Fault> {
    let mut read = [9; 5];
    disk.read(2, &mut read)?;
    assert!(rt; read == [8, 0, 0, 0, 0]);
    Ok(())
}

fn takes_no_write<D: Device>(rt: &impl Abort, disk: &mut D) {
    assert!(rt; disk.write(0, &[1]).is_err());
    assert!(rt; disk.failures() == 1);
}

fn takes_no_sync<D: Device>(rt: &impl Abort, disk: &mut D) -> Result<(), Fault> {
    let mut read = [9; 5];
    disk.read(0, &mut read)?;
    assert!(rt; disk.sync().is_err());
    assert!(rt; disk.failures() == 1);
    Ok(())
}

const PATH: &str = "fkv_disk_test_file";

#[test]
fn a_file_reads_back(rt: HostRuntime) -> Result<(), Fail> {
    takes(&rt, &mut make_file(&rt, PATH)?)?;
    has(&rt, &mut open_file(&rt, PATH)?)?;
    takes_no_write(&rt, &mut FileDisk::new(std::fs::open(&rt, PATH)?));
    // The system syncs no such file, and says so.
    takes_no_sync(&rt, &mut FileDisk::new(std::fs::open(&rt, "/dev/zero")?))?;
    std::fs::remove_file(&rt, PATH)?;
    assert!(rt; open_file(&rt, PATH).is_err());
    Ok(())
}
