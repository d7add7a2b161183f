//! Right bodies of a session's call. Each has the clause of `Seated::call`, and is the control of a wrong body in must-fail/: that differs from it in one value.
//! So what refuses the wrong one isn't its shape.
ghost use Rattle.fkv_threads_tests.specs.Said as said;

use fkv_base::Serial;
use fkv_disk::Device;
use fkv_map::{Call, Op};
use fkv_session::Told;
use fkv_threads::Seated;
use std::sync::atomic::{AtomicBool, Ordering};

/// A point that is told as durable is made anew.
pub fn tell_a_rebuilt_point<D: Device>(seated: &mut Seated<D>, call: Call) -> Told
    ensures called { said.IsToldCallOf (said.opening D.Device) seated.old call result seated.new }
{
    match seated.call(call) {
        Told::Durable(serial) => Told::Durable(Serial(serial.0)),
        other => other,
    }
}

/// A value that is found is told anew.
pub fn tell_a_rebuilt_value<D: Device>(seated: &mut Seated<D>, call: Call) -> Told
    ensures called { said.IsToldCallOf (said.opening D.Device) seated.old call result seated.new }
{
    match seated.call(call) {
        Told::Found(value) => Told::Found(value),
        other => other,
    }
}

/// The reply of a done update is told anew.
pub fn tell_a_rebuilt_reply<D: Device>(seated: &mut Seated<D>, call: Call) -> Told
    ensures called { said.IsToldCallOf (said.opening D.Device) seated.old call result seated.new }
{
    match seated.call(call) {
        Told::Done(serial, reply) => Told::Done(serial, reply),
        other => other,
    }
}

/// One call is told apart from the others.
pub fn call_by_cases<D: Device>(seated: &mut Seated<D>, call: Call) -> Told
    ensures called { said.IsToldCallOf (said.opening D.Device) seated.old call result seated.new }
{
    match call {
        Call::Sleep => seated.call(Call::Sleep),
        other => seated.call(other),
    }
}

/// An update is made anew before it is called.
pub fn call_a_rebuilt_update<D: Device>(seated: &mut Seated<D>, call: Call) -> Told
    ensures called { said.IsToldCallOf (said.opening D.Device) seated.old call result seated.new }
{
    match call {
        Call::Op(Op::Upsert(key, value)) => seated.call(Call::Op(Op::Upsert(key, value))),
        other => seated.call(other),
    }
}

/// An operation is called as one.
pub fn call_a_rebuilt_operation<D: Device>(seated: &mut Seated<D>, call: Call) -> Told
    ensures called { said.IsToldCallOf (said.opening D.Device) seated.old call result seated.new }
{
    match call {
        Call::Op(op) => seated.call(Call::Op(op)),
        other => seated.call(other),
    }
}

/// A flag is raised while the call runs. It waits for nobody.
pub fn call_with_a_flag<D: Device>(flag: &AtomicBool, seated: &mut Seated<D>, call: Call) -> Told
    ensures called { said.IsToldCallOf (said.opening D.Device) seated.old call result seated.new }
{
    let _ = flag.swap(true, Ordering::SeqCst);
    let told = seated.call(call);
    flag.store(false, Ordering::SeqCst);
    told
}
