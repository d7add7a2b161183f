//! A store in memory, which the program opens as a file.
use crate::{Shelf, run_on_shelf};
use fkv_base::{Fault, Shape};
use fkv_cli::{run_with, script_of};
use fkv_creating::create;
use fkv_disk::MemDisk;
use fkv_options::{Options, status_of};
use std::alloc::Global;
use std::io::Cursor;
use std::test::Fail;

const SCRIPT: &[u8] = b"open\n0 up 1 10\n0 get 1\n";

const REPORT: &[u8] = b"open commit 0 points 0 0 pairs 0\n0 #1 done\n0 get 1 = 10\n";

/// The bytes of a new store with two sessions.
fn new_image(alloc: Global) -> Result<Vec<u8>, Fault> {
    let mut disk = MemDisk::new(alloc);
    create(&mut disk, Shape::new(2, 4, 2, 1, 2, 0, 1)?)?;
    Ok(disk.into_bytes())
}

/// What the script prints over the store of this name, and its status.
fn printed(alloc: Global, shelf: &Shelf<'_>, name: &str) -> (u8, Vec<u8>) {
    let mut output = Vec::new(alloc);
    let mut complaints = Vec::new(alloc);
    let words = ["--file", name];
    let input = Cursor::new(SCRIPT);
    let status = run_on_shelf(shelf, alloc, &words, input, &mut output, &mut complaints);
    (status, output)
}

#[test]
fn a_store_in_memory_is_opened_as_a_file(rt: HostRuntime) -> Result<(), Fail> {
    let image = new_image(rt.alloc())?;
    let shelf = Shelf::new(rt.alloc(), "store", image.as_slice());
    let (status, output) = printed(rt.alloc(), &shelf, "store");
    assert_eq!(rt; status, 0);
    assert!(rt; output.as_slice() == REPORT);
    Ok(())
}

#[test]
fn no_other_name_is_opened(rt: HostRuntime) -> Result<(), Fail> {
    let image = new_image(rt.alloc())?;
    let shelf = Shelf::new(rt.alloc(), "store", image.as_slice());
    let (status, output) = printed(rt.alloc(), &shelf, "another");
    assert_eq!(rt; status, 3);
    assert!(rt; output.as_slice() == b"refused 14 Device\n".as_slice());
    Ok(())
}

/// The options that name this file.
fn options_for(alloc: Global, name: &str) -> Result<Options, Fail> {
    let mut options = Options::default();
    options.file = Some(String::from_str(alloc, name)?);
    Ok(options)
}

#[test]
fn options_run_a_script(rt: HostRuntime) -> Result<(), Fail> {
    let image = new_image(rt.alloc())?;
    let shelf = Shelf::new(rt.alloc(), "store", image.as_slice());
    let options = options_for(rt.alloc(), "store")?;
    let mut output = Vec::new(rt.alloc());
    let mut complaints = Vec::new(rt.alloc());
    let ended = run_with(
        &shelf,
        rt.alloc(),
        &options,
        Cursor::new(SCRIPT),
        &mut output,
        &mut complaints,
    );
    assert_eq!(rt; status_of(&ended), 0);
    assert!(rt; output.as_slice() == REPORT);
    Ok(())
}

#[test]
fn options_say_where_a_store_lies(rt: HostRuntime) -> Result<(), Fail> {
    let options = options_for(rt.alloc(), "store")?;
    assert!(rt; script_of(rt.alloc(), SCRIPT, &options).is_ok());
    match script_of(rt.alloc(), SCRIPT, &Options::default()) {
        Ok(_) => assert!(rt; false),
        Err(ended) => {
            assert_eq!(rt; ended.status, 2);
            assert!(rt; ended.text.as_str() == "script line 1 Mode\n");
        }
    }
    Ok(())
}
