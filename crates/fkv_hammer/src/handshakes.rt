//! Two sessions that wait for each other. One thread that runs both, session after session, can't pass it.
use fkv_options::{Options, Verdict};
use fkv_thread_scripts::threads_script_of;
use fkv_threading::{Gate, run_threads};
use std::alloc::Global;
use std::io::Cursor;
use std::rt::Clock;
use std::sync::Wait;
use std::sync::atomic::{AtomicBool, AtomicU64, Ordering};
use std::thread::{self, Threads};
use std::time::Duration;

/// Three sums of each session.
const SCRIPT: &[u8] =
    b"shape 4 16 4 2 2 0 64\n0 add 1 1\n0 add 1 1\n0 add 1 1\n1 add 1 2\n1 add 1 2\n1 add 1 2\n";

/// Its report.
const REPORT: &[u8] = b"commit 0\npoints agree\nkeys agree 1\n";

/// Holds session 0 before its second line until session 1 has had its second one answered, and session 1 before its third until session 0 has had
/// its second one answered.
#[derive(Drop)]
struct Handshake<'r, R: Clock> {
    rt: &'r R,
    /// How many lines of each session are answered.
    answered: [AtomicU64; 2],
    is_late: AtomicBool,
}

impl<'r, R: Clock> Handshake<'r, R> {
    fn wait_for(&self, session: usize, lines: u64) {
        let Some(answered) = self.answered.get(session) else {
            return;
        };
        for _ in 0..10_000 {
            if answered.load(Ordering::SeqCst) >= lines {
                return;
            }
            thread::sleep(self.rt, Duration::from_millis(1));
        }
        self.is_late.store(true, Ordering::SeqCst);
    }
}

impl<'r, R: Clock> Gate for Handshake<'r, R> {
    fn before(&self, session: usize, line: u64) {
        if let Some(answered) = self.answered.get(session) {
            answered.store(line.saturating_sub(1), Ordering::SeqCst);
        }
        match (session, line) {
            (0, 2) => self.wait_for(1, 2),
            (1, 3) => self.wait_for(0, 2),
            _ => {}
        }
    }
}

/// Runs the two sessions. Whether neither waited in vain, and their report is as it should be.
pub(crate) fn run_at_once<H: Threads + Wait + Sync>(
    rt: &HostRuntime,
    hands: &H,
    alloc: Global,
) -> bool {
    let gate = Handshake {
        rt,
        answered: [AtomicU64::new(0), AtomicU64::new(0)],
        is_late: AtomicBool::new(false),
    };
    let mut into = [0; 100];
    let told = report(rt, hands, alloc, &gate, &mut into);
    !gate.is_late.load(Ordering::SeqCst) && told == REPORT
}

fn report<'o, G: Gate + Sync, H: Threads + Wait + Sync>(
    rt: &HostRuntime,
    hands: &H,
    alloc: Global,
    gate: &G,
    into: &'o mut [u8],
) -> &'o [u8] {
    let Ok(script) = threads_script_of(alloc, SCRIPT) else {
        return &[];
    };
    let options = Options::default();
    let mut output = Cursor::new(into);
    match run_threads(hands, rt, alloc, &script, &mut output, &options, gate) {
        Ok(Verdict::Agrees) => {}
        _ => return &[],
    }
    let end = output.position();
    let into = output.into_inner();
    match into.get(..end as usize) {
        Some(text) => text,
        None => &[],
    }
}
