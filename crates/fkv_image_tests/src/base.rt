use fkv_base::{Damage, Fault, Phase, ScriptFault, Shape, StoreClass};
use std::test::Fail;

#[test]
fn faults_and_phases_have_their_names(rt: HostRuntime) -> Result<(), Fail> {
    let damaged = Fault::Damaged(Damage::Record, 1);
    assert!(rt; damaged.number() == 16);
    assert!(rt; damaged.name() == "Damaged");
    assert!(rt; Fault::LostFull.number() == 21);
    assert!(rt; Damage::Record.name() == "Record");
    assert!(rt; ScriptFault::Count.name() == "Count");
    let shown = format!(in rt.alloc(); "{damaged}")?;
    assert!(rt; shown.as_str() == "the image is damaged: record 1");
    for (phase, name) in [(Phase::Rest, "rest"), (Phase::WaitFlush, "wait-flush")] {
        assert!(rt; phase.name() == name);
    }
    Ok(())
}

#[test]
fn a_shape_within_its_limits_is_kept(rt: HostRuntime) {
    for (sizes, small, large) in [
        ([4, 16, 4, 2, 1, 0, 64], true, true),
        ([10, 1024, 64, 63, 32, 1024, 65536], true, true),
        ([11, 16, 4, 2, 1, 0, 64], false, true),
        (
            [24, 65536, 4096, 4095, 32, 16777216, 1073741824],
            false,
            true,
        ),
        ([25, 16, 4, 2, 1, 0, 64], false, false),
        ([4, 16, 4, 2, 33, 0, 64], false, false),
        ([4, 6, 4, 2, 1, 0, 64], false, false),
        ([0, 4, 2, 2, 1, 0, 1], false, false),
    ] {
        let [bits, page, frames, mutable, sessions, overflow, pages] = sizes;
        let shape = Shape::new(bits, page, frames, mutable, sessions, overflow, pages);
        assert!(rt; shape.is_ok() == small);
        let shape = Shape::large(bits, page, frames, mutable, sessions, overflow, pages);
        assert!(rt; shape.is_ok() == large);
    }
}

#[test]
fn shapes_of_equal_sizes_differ_by_class(rt: HostRuntime) -> Result<(), Fail> {
    let specified = Shape::new(4, 16, 4, 2, 1, 0, 64)?;
    let living = Shape::large(4, 16, 4, 2, 1, 0, 64)?;
    assert!(rt; specified != living);
    assert!(rt; specified.class == StoreClass::Specified && living.class == StoreClass::Living);
    assert!(rt; specified.is_specified() && !living.is_specified());
    Ok(())
}
