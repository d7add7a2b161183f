//! How records that nobody writes any more get to the device.
ghost use Rattle.std.specs.Prelude.{◌≡◌, ◌<◌, ◌≤◌, ◌-◌, ◌^◌, ◌↔◌, [], true, is_ok, vec_len, IfOk, OnOk, OnErr, Err};
ghost use Rattle.std.specs.Vec.{vec_capacity};
ghost use Rattle.fkv_base.specs.Limits.{max_page};
ghost use Rattle.fkv_base.specs.declared.faults.Fault.TheVariants.{Memory};
ghost use Rattle.fkv_disk.specs.Asks.{asked_call, first_asked, kinds_by};
ghost use Rattle.fkv_disk.specs.Device.{Elapses, HasCause, MakesCalls};
ghost use Rattle.fkv_flush.specs.Flushing.{flush_ask, flush_next, bytes_next, flush_calls, flush_done, bytes_done, part_begun, record_after, count_next, count_done, word_due, HasRoom, IsWithin};
ghost use Rattle.fkv_flush.specs.AsksLeft.{flush_asks_left, most_flush_asks, EndsWithin, GoesOnWhereLeft};
ghost use Rattle.fkv_flush.specs.Devices.{Adds, calls_asked};
ghost use Rattle.fkv_flush.specs.declared.flushing.Flushing.TheVariants.{AtRest, LoadsFlushed};
ghost use Rattle.fkv_plane.specs.declared.places.Places.{Places};

use crate::answers::DeviceAnswer;
use fkv_base::{Addr, Fault, Shape};
use fkv_disk::{Device, DeviceAsk};
use fkv_plane::{Ask, Places, RecordWord, SharedWord};
use fkv_record::record_place;
use std::alloc::Global;
use std::marker::Model;

/// The records of one page that one write takes to the device: those from an address on and below another. The whole
/// flush goes on to its end.
#[derive(Clone, Copy)]
pub(crate) struct Part {
    from: u64,
    stop: u64,
    end: u64,
}

/// How far the machine has come.
#[derive(Clone, Copy)]
pub(crate) enum Flushing {
    AtRest,
    LoadsFlushed,
    /// The flushed offset.
    LoadsEnd(u64),
    /// The record, and its word.
    LoadsWord(Part, u64, RecordWord),
    WritesPart(Part),
    /// The end of what is written.
    Syncs(u64),
    RaisesFlushed(u64),
}

/// Takes the records from the flushed offset to the safe read-only offset to the device: one write for each page that
/// they lie in, of these records alone, and one sync. Then it raises the flushed offset.
#[derive(Drop)]
pub struct Flush {
    shape: Shape,
    places: Places,
    bytes: Vec<u8>,
    step: Flushing,
}

impl Model for Flush {
    ghost use Rattle.std.specs.Prelude.{◌*◌, ◌≤◌, length, vec_len};
    ghost use Rattle.std.specs.Vec.{vec_capacity};
    ghost use Rattle.fkv_flush.specs.Flushing.{Flusher, IsFlushInRange};

    ghost Value = { Flusher };

    ghost view = { λ m. record { shape = m.shape; places = m.places; bytes = m.bytes.items; step = m.step } };

    ghost invariant = { λ m. (24 * m.shape.page ≤ vec_capacity m.bytes) × IsFlushInRange m.shape.page (vec_len m.bytes) m.step };
}

impl Flush {
    /// The machine at rest, with room for the bytes of one page. `Fault::Memory` where memory is refused for it; later no
    /// more is taken.
    pub fn new(alloc: Global, shape: Shape, places: Places) -> Result<Flush, Fault>
        ensures made { IfOk result (λ flush. flush ≡ record { shape = shape; places = places; bytes = []; step = AtRest }) }
        ensures err { OnErr result (result ≡ Err Memory) }
    {
        let bytes = Vec::with_capacity(alloc, 24 * shape.page as usize)?;
        Ok(Flush {
            shape,
            places,
            bytes,
            step: Flushing::AtRest,
        })
    }

    /// The first ask.
    #[tactic(auto, unfolding(crate::specs::Flushing::flush_ask, crate::specs::AsksLeft::flush_asks_left))]
    pub fn start(&mut self) -> Ask<DeviceAnswer>
        ensures next { self.new ≡ record self.old { bytes = []; step = LoadsFlushed } }
        ensures ask { result ≡ flush_ask self.old.places LoadsFlushed }
        ensures left { GoesOnWhereLeft (flush_asks_left self.new.step) result }
        ensures bounded { flush_asks_left self.new.step ≤ most_flush_asks }
    {
        self.bytes.clear();
        self.step = Flushing::LoadsFlushed;
        Ask::Load(SharedWord::Flushed.place())
    }

    /// Goes on with the reply to its ask. Where it needs the device it stays where it is.
    pub fn drive(&mut self, reply: u64) -> Ask<DeviceAnswer>
        ensures next { self.new ≡ record self.old { bytes = bytes_next self.old.step self.old.bytes reply; step = flush_next self.old.shape.page self.old.step reply } }
        ensures ask { result ≡ flush_ask self.old.places (flush_next self.old.shape.page self.old.step reply) }
        ensures left { GoesOnWhereLeft (flush_asks_left self.new.step) result }
        ensures fewer { calls_asked (flush_ask self.old.places self.old.step) ≡ 0 → flush_asks_left self.new.step ≤ flush_asks_left self.old.step - 1 }
        ensures bounded { EndsWithin self.old.step reply self.new.step }
    {
        self.keep(reply);
        self.ask()
    }

    /// Goes on as `drive` does, and doesn't tell what it asks: `word_due` does, while it loads the words of records.
    #[inline(always)]
    pub fn keep(&mut self, reply: u64)
        ensures next { self.new ≡ record self.old { bytes = bytes_next self.old.step self.old.bytes reply; step = flush_next self.old.shape.page self.old.step reply } }
    {
        keep_word(&mut self.bytes, self.step, reply);
        self.step = step_after(self.shape.page, self.step, reply);
    }

    /// The place of the record's word that it loads, if it loads one.
    #[inline(always)]
    pub fn word_due(&self) -> Option<usize>
        ensures { result ≡ word_due self.now.places self.now.step }
    {
        match self.step {
            Flushing::LoadsWord(_, addr, word) => Some(self.places.record(Addr(addr), word)),
            _ => None,
        }
    }

    /// Makes the one call of the device that it needs, and goes on. Where it needs none it makes none, and stays where it
    /// is. `Fault::Device` where the device failed: the machine is at rest then, and nothing was raised.
    pub fn device_step<D: Device>(&mut self, d: &mut D) -> Result<Ask<DeviceAnswer>, Fault>
        ensures next { self.new ≡ record self.old { bytes = bytes_done self.old.step self.old.bytes; step = flush_done self.old.shape.page self.old.step (is_ok result) } }
        ensures ask { IfOk result (λ ask. ask ≡ flush_ask self.old.places (flush_done self.old.shape.page self.old.step true)) }
        ensures left { IfOk result (λ ask. GoesOnWhereLeft (flush_asks_left self.new.step) ask) }
        ensures fewer { flush_asks_left self.new.step ≤ flush_asks_left self.old.step - calls_asked (flush_ask self.old.places self.old.step) }
        ensures none { OnErr result (flush_asks_left self.new.step ≡ 0) }
        ensures cause { HasCause (D.failed d.old) (D.failed d.new) result }
        ensures counted { MakesCalls (calls_asked (flush_ask self.old.places self.old.step)) (D.refuses d.old) (D.refuses d.new) result }
        ensures kind { D.expects d.new ≡ kinds_by (first_asked (flush_calls self.old.shape self.old.bytes self.old.step true)) (is_ok result) (D.expects d.old) }
        ensures honest { D.honest d.old ↔ D.honest d.new }
        ensures calls { D.honest d.old → Adds (flush_calls self.old.shape self.old.bytes self.old.step (is_ok result)) (D.seen d.old) (D.seen d.new) (D.may_leave d.old) (D.may_leave d.new) }
        ensures time { D.honest d.old → Elapses (D.moment d.old) (D.moment d.new) (D.left_since d.old) (D.left_since d.new) (D.may_leave d.new) }
    {
        let called = call_device(d, self.shape, &self.bytes, self.step);
        drop_written(&mut self.bytes, self.step);
        self.step = step_called(self.shape.page, self.step, called.is_ok());
        called?;
        Ok(self.ask())
    }

    /// The call of the device that `device_step` makes, if it makes one.
    #[tactic(auto, unfolding(crate::specs::Flushing::flush_calls))]
    pub fn device_ask(&self) -> Option<DeviceAsk<'_>>
        ensures { asked_call result ≡ first_asked (flush_calls self.now.shape self.now.bytes self.now.step true) }
    {
        match self.step {
            Flushing::WritesPart(part) => {
                let at = record_place(self.shape, Addr(part.from));
                Some(DeviceAsk::Write(at, &self.bytes))
            }
            Flushing::Syncs(_) => Some(DeviceAsk::Sync),
            _ => None,
        }
    }

    /// What it asks now.
    #[tactic(auto, unfolding(crate::specs::Flushing::flush_ask))]
    pub fn ask(&self) -> Ask<DeviceAnswer>
        ensures { result ≡ flush_ask self.now.places self.now.step }
    {
        match self.step {
            Flushing::AtRest => Ask::Done(DeviceAnswer::Through),
            Flushing::LoadsFlushed => Ask::Load(SharedWord::Flushed.place()),
            Flushing::LoadsEnd(_) => Ask::Load(SharedWord::SafeReadOnly.place()),
            Flushing::LoadsWord(_, addr, word) => Ask::Load(self.places.record(Addr(addr), word)),
            Flushing::WritesPart(_) | Flushing::Syncs(_) => Ask::Done(DeviceAnswer::Device),
            Flushing::RaisesFlushed(end) => Ask::Max(SharedWord::Flushed.place(), end),
        }
    }
}

// Puts a word that was loaded behind those in hand.
#[tactic(auto, unfolding(crate::specs::Flushing::bytes_next, crate::specs::Flushing::count_next))]
#[inline(always)]
fn keep_word(bytes: &mut Vec<u8>, step: Flushing, reply: u64)
    requires { HasRoom step (vec_len bytes.old) (vec_capacity bytes.old) }
    ensures items { bytes.new.items ≡ bytes_next step bytes.old.items reply }
    ensures len { vec_len bytes.new ≡ count_next step (vec_len bytes.old) }
    ensures capacity { vec_capacity bytes.old ≤ vec_capacity bytes.new }
{
    if let Flushing::LoadsWord(_, _, _) = step {
        let _ = bytes.extend_from_slice(&reply.to_le_bytes());
    }
}

// Where a reply leads.
#[tactic(auto, unfolding(crate::specs::Flushing::flush_next))]
#[inline(always)]
fn step_after(page: u64, step: Flushing, reply: u64) -> Flushing
    requires page { 0 < page }
    requires small { page ≤ max_page }
    requires within { IsWithin step }
    ensures { result ≡ flush_next page step reply }
{
    match step {
        Flushing::AtRest | Flushing::RaisesFlushed(_) => Flushing::AtRest,
        Flushing::LoadsFlushed => Flushing::LoadsEnd(reply),
        Flushing::LoadsEnd(flushed) => {
            if flushed < reply && reply < 1 << 48 {
                part_begun(page, flushed, reply)
            } else {
                Flushing::AtRest
            }
        }
        Flushing::LoadsWord(part, addr, RecordWord::Header) => {
            Flushing::LoadsWord(part, addr, RecordWord::Key)
        }
        Flushing::LoadsWord(part, addr, RecordWord::Key) => {
            Flushing::LoadsWord(part, addr, RecordWord::Value)
        }
        Flushing::LoadsWord(part, addr, RecordWord::Value) => record_after(part, addr),
        Flushing::WritesPart(part) => Flushing::WritesPart(part),
        Flushing::Syncs(end) => Flushing::Syncs(end),
    }
}

// The records from an address on up to the end of its page are loaded, or up to the end of the flush.
#[tactic(auto, using(crate::proofs::Parts::page_end_fits))]
fn part_begun(page: u64, from: u64, end: u64) -> Flushing
    requires page { 0 < page }
    requires small { page ≤ max_page }
    requires addresses { from < 2 ^ 48 }
    ensures { result ≡ part_begun page from end }
{
    let part = Part {
        from,
        stop: end.min((from / page + 1) * page),
        end,
    };
    Flushing::LoadsWord(part, from, RecordWord::Header)
}

// The record after this one is loaded, and the part is written after its last.
#[inline(always)]
fn record_after(part: Part, addr: u64) -> Flushing
    requires { addr < part.stop }
    ensures { result ≡ record_after part addr }
{
    if addr + 1 < part.stop {
        Flushing::LoadsWord(part, addr + 1, RecordWord::Header)
    } else {
        Flushing::WritesPart(part)
    }
}

// The call of the device that a step makes, if it makes one.
#[tactic(auto, unfolding(crate::specs::Flushing::flush_calls, crate::specs::Flushing::flush_ask))]
fn call_device<D: Device>(
    d: &mut D,
    shape: Shape,
    bytes: &[u8],
    step: Flushing,
) -> Result<(), Fault>
    requires { IsWithin step }
    ensures cause { HasCause (D.failed d.old) (D.failed d.new) result }
    ensures called { (places : Places) → OnErr result (0 < calls_asked (flush_ask places step)) }
    ensures counted { (places : Places) → MakesCalls (calls_asked (flush_ask places step)) (D.refuses d.old) (D.refuses d.new) result }
    ensures kind { D.expects d.new ≡ kinds_by (first_asked (flush_calls shape bytes.now step true)) (is_ok result) (D.expects d.old) }
    ensures honest { D.honest d.old ↔ D.honest d.new }
    ensures calls { D.honest d.old → Adds (flush_calls shape bytes.now step (is_ok result)) (D.seen d.old) (D.seen d.new) (D.may_leave d.old) (D.may_leave d.new) }
    ensures time { D.honest d.old → Elapses (D.moment d.old) (D.moment d.new) (D.left_since d.old) (D.left_since d.new) (D.may_leave d.new) }
{
    match step {
        Flushing::WritesPart(part) => d.write(record_place(shape, Addr(part.from)), bytes),
        Flushing::Syncs(_) => d.sync(),
        _ => Ok(()),
    }
}

// Nothing is in hand once it was written.
#[tactic(auto, unfolding(crate::specs::Flushing::bytes_done, crate::specs::Flushing::count_done))]
fn drop_written(bytes: &mut Vec<u8>, step: Flushing)
    ensures items { bytes.new.items ≡ bytes_done step bytes.old.items }
    ensures len { vec_len bytes.new ≡ count_done step (vec_len bytes.old) }
    ensures capacity { vec_capacity bytes.old ≤ vec_capacity bytes.new }
{
    if let Flushing::WritesPart(_) = step {
        bytes.clear();
    }
}

// Where a call of the device leads: the next part, or after the last one the sync.
#[tactic(auto, unfolding(crate::specs::Flushing::flush_done))]
fn step_called(page: u64, step: Flushing, done: bool) -> Flushing
    requires page { 0 < page }
    requires small { page ≤ max_page }
    requires within { IsWithin step }
    ensures { result ≡ flush_done page step done }
{
    match (step, done) {
        (Flushing::WritesPart(part), true) => {
            if part.stop < part.end {
                part_begun(page, part.stop, part.end)
            } else {
                Flushing::Syncs(part.end)
            }
        }
        (Flushing::Syncs(end), true) => Flushing::RaisesFlushed(end),
        (Flushing::WritesPart(_) | Flushing::Syncs(_), false) => Flushing::AtRest,
        (other, _) => other,
    }
}
