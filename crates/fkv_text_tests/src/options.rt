//! How a run ends early, and the words after the program's name where memory is refused.
use fkv_options::{RunFault, options_of};
use std::process::Abort;

fn compare(rt: &impl Abort, fault: &RunFault, status: u8, text: &str) {
    assert_eq!(rt; fault.status, status);
    assert_eq!(rt; fault.text.as_str(), text);
}

#[test]
fn each_end_has_its_status_and_its_text(rt: HostRuntime) {
    compare(&rt, &RunFault::printed(rt.alloc(), 3), 3, "");
    compare(&rt, &RunFault::want(rt.alloc()), 4, "");
    let line = RunFault::of_line(rt.alloc(), "script line 7 Word");
    compare(&rt, &line, 2, "script line 7 Word\n");
}

// A tool outside lets each request for memory fail in turn and runs this test.
#[test]
fn refused_memory_is_want(rt: HostRuntime) {
    let words = ["--file", "image", "--seed=5"];
    if let Err(fault) = options_of(rt.alloc(), &words) {
        compare(&rt, &fault, 4, "");
        assert!(rt; options_of(rt.alloc(), &words).is_ok());
    }
    match options_of(rt.alloc(), &["--threads"]) {
        Ok(_) => assert!(rt; false, "not refused"),
        Err(fault) if fault.status == 4 => compare(&rt, &fault, 4, ""),
        Err(fault) => compare(&rt, &fault, 2, "options\n"),
    }
}
