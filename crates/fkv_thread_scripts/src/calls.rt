//! The calls of one session in a script.
ghost use Rattle.std.specs.Prelude.{◌≡◌, ◌++◌, Err, IfOk, OnErr, OnOk};
ghost use Rattle.fkv_base.specs.declared.faults.Fault.TheVariants.{Memory};
ghost use Rattle.fkv_thread_scripts.specs.Calls.{call_in, calls_of};

use fkv_base::Fault;
use fkv_lines::Line;
use fkv_map::Call;
use std::alloc::Global;

/// The calls of the session of this number, in the order of its lines. `Memory` where memory was refused.
pub fn calls_of(alloc: Global, lines: &[Line], session: u64) -> Result<Vec<Call>, Fault>
    ensures calls { IfOk result (λ calls. calls.items ≡ calls_of session lines.now) }
    ensures err { OnErr result (result ≡ Err Memory) }
{
    let mut calls = Vec::new(alloc);
    for line in lines {
        push_call(&mut calls, *line, session)?;
    }
    Ok(calls)
}

fn push_call(calls: &mut Vec<Call>, line: Line, session: u64) -> Result<(), Fault>
    ensures calls { OnOk result (calls.new.items ≡ calls.old.items ++ call_in session line) }
    ensures err { OnErr result (result ≡ Err Memory) }
{
    if let Line::Call(number, call) = line {
        if number == session {
            calls.push(call)?;
        }
    }
    Ok(())
}
