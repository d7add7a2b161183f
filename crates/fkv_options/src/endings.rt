//! How a run ends.
ghost use Rattle.std.specs.Prelude.{◌≡◌, ◌⊎◌, ◌++◌, ◌∷◌, [], IfErr, IfOk, string_bytes};
ghost use Rattle.fkv_options.specs.RunFault.{IsWant, LeavesLine, ended_status};

use std::alloc::{AllocError, Global};
use thiserror::Error;

/// How a run ended that came to its end.
#[derive(Clone, Copy, Debug, PartialEq, Eq)]
pub enum Verdict {
    /// Status 0: nothing that was checked differs.
    Agrees,
    /// Status 1: something differs.
    Differs,
}

/// How a run ended that has come to this status, and has written its texts.
pub fn ended_with(alloc: Global, status: u8) -> Result<Verdict, RunFault>
    ensures status { ended_status result ≡ status }
    ensures printed { IfErr result (λ fault. string_bytes fault.text ≡ []) }
{
    match status {
        0 => Ok(Verdict::Agrees),
        1 => Ok(Verdict::Differs),
        _ => Err(RunFault::printed(alloc, status)),
    }
}

/// The exit status of a run that ended so.
pub fn status_of(ended: &Result<Verdict, RunFault>) -> u8
    ensures { result ≡ ended_status ended.now }
{
    match ended {
        Ok(Verdict::Agrees) => 0,
        Ok(Verdict::Differs) => 1,
        Err(fault) => fault.status,
    }
}

/// Why a run ended early: its exit status, and the text that is left to print.
#[derive(Debug, Drop, Error)]
#[error("the run ended with status {status}")]
pub struct RunFault {
    /// 2: options or script; 3: the store was refused; 4: memory or a standard stream failed.
    pub status: u8,
    /// One line with its end, or nothing.
    pub text: String,
}

impl RunFault {
    /// What was to print is printed.
    pub fn printed(alloc: Global, status: u8) -> RunFault
        ensures status { result.status ≡ status }
        ensures text { string_bytes result.text ≡ [] }
    {
        RunFault {
            status,
            text: String::new(alloc),
        }
    }

    /// Memory or a standard stream failed: status 4, and nothing is left to print.
    pub fn want(alloc: Global) -> RunFault
        ensures { IsWant result }
    {
        RunFault::printed(alloc, 4)
    }

    /// Options or a script are refused before anything runs: status 2, and `line` is left to print, which is given
    /// without its end. Where memory is refused, it is want.
    pub fn of_line(alloc: Global, line: &str) -> RunFault
        ensures { IsWant result ⊎ LeavesLine line.now result }
    {
        match ended(alloc, line) {
            Ok(text) => RunFault { status: 2, text },
            Err(_) => RunFault::want(alloc),
        }
    }
}

/// The line with its end.
fn ended(alloc: Global, line: &str) -> Result<String, AllocError>
    ensures { IfOk result (λ text. string_bytes text ≡ line.now ++ (10 ∷ [])) }
{
    let mut text = String::from_str(alloc, line)?;
    text.push('\n')?;
    Ok(text)
}
