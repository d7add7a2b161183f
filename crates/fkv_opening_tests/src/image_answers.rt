//! What is answered of the image in the file that IMAGE names, and of the file that FILE names, as a device that is read ahead: tools
//! outside work out the same from the definitions and compare, count the calls, and measure. RECOVERED names one that is recovered
//! alone, and NEW one that becomes a store first.
use crate::answers::{answer, recovered, told};
use fkv_base::Shape;
use fkv_creating::create;
use fkv_disk::{PageSize, Pages, ReadAhead, make_file, open_file};
use std::test::Fail;
use std::{env, fs};

#[test]
fn an_image_is_answered(rt: HostRuntime) -> Result<(), Fail> {
    let Ok(path) = env::var(&rt, "IMAGE") else {
        return Ok(());
    };
    let image = fs::read(&rt, path.as_str())?;
    println!(rt; "answer {}", told(rt.alloc(), &image)?)?;
    Ok(())
}

#[test]
fn a_file_is_answered(rt: HostRuntime) -> Result<(), Fail> {
    let Ok(path) = env::var(&rt, "FILE") else {
        return Ok(());
    };
    let pages = Pages::new(rt.alloc(), PageSize::Kib4, 8192)?;
    let mut disk = ReadAhead::new(open_file(&rt, path.as_str())?, pages);
    println!(rt; "answer {}", answer(rt.alloc(), &mut disk)?)?;
    Ok(())
}

#[test]
fn a_file_is_recovered(rt: HostRuntime) -> Result<(), Fail> {
    let Ok(path) = env::var(&rt, "RECOVERED") else {
        return Ok(());
    };
    let pages = Pages::new(rt.alloc(), PageSize::Kib4, 8192)?;
    let mut disk = ReadAhead::new(open_file(&rt, path.as_str())?, pages);
    println!(rt; "answer {}", recovered(rt.alloc(), &mut disk)?)?;
    Ok(())
}

#[test]
fn a_file_becomes_a_store(rt: HostRuntime) -> Result<(), Fail> {
    let Ok(path) = env::var(&rt, "NEW") else {
        return Ok(());
    };
    let mut disk = make_file(&rt, path.as_str())?;
    create(&mut disk, Shape::new(4, 16, 4, 2, 1, 0, 64)?)?;
    println!(rt; "answer {}", answer(rt.alloc(), &mut disk)?)?;
    Ok(())
}
