//! What a straight call goes by.
ghost use Rattle.std.specs.Prelude.{◌≡◌, ◌%◌, ◌^◌, ◌<◌, ℕ};
ghost use Rattle.std.specs.Int.Bits.{bit_and};
ghost use Rattle.fkv_plane.specs.Places.{bucket_place, frames_start};
ghost use Rattle.fkv_ops.specs.Bounds.{bounds_of, tail_bound};

use crate::words::{is_moving_on, is_preparing, is_read, past_shared};
use fkv_base::{Addr, Serial, Shape, Version};
use fkv_map::Op;
use fkv_marks::mark;
use fkv_ops::Bounds;
use fkv_pending::RequestName;
use fkv_plane::{Places, RecordWord};
use fkv_session::Session;

/// What the straight calls of a session go by, as it has seen it.
#[derive(Clone, Copy)]
pub struct Going {
    pub places: Places,
    /// Where the buckets start.
    pub first_bucket: usize,
    /// Where the frames start.
    pub frames: usize,
    /// The index has 2^bits buckets.
    pub bits: u64,
    /// Their count less one: a key masked by it is its bucket.
    pub bucket_mask: u64,
    pub head: u64,
    /// An address of a chain below it counts as 0.
    pub floor: u64,
    pub read_only: u64,
    /// The session's version.
    pub version: u64,
    /// Its mark, which each record has that the session makes.
    pub mark: u64,
    /// Whether a commit's sessions go on to the next version: then a new record wants a latch.
    pub is_moving_on: bool,
    /// Whether updates share the latch of their bucket.
    pub is_preparing: bool,
    /// The first address that no call of the store takes, where there is one. An update that would wait is the machine's then.
    pub bound: Option<u64>,
    pub ghost buckets: { places.buckets ≡ 2 ^ bits },
    pub ghost mark_fits: { mark < 2 ^ 13 },
    pub ghost starts: { frames ≡ frames_start places },
    pub ghost starts_first: { first_bucket ≡ bucket_place places 0 0 },
    pub ghost masks: { (n : ℕ) → bit_and n bucket_mask ≡ n % 2 ^ bits },
    pub ghost few_bits: { bits < 64 },
    pub ghost some_head: { 0 < head },
    pub ghost low_head: { head < 2 ^ 62 },
}

/// An update that alone waits.
#[derive(Clone, Copy)]
pub(crate) struct Lone {
    pub op: Op,
    pub serial: Serial,
}

/// The first address that no call of a store of this shape takes, where there is one.
fn bound_of(shape: &Shape) -> Option<u64>
    ensures { result ≡ tail_bound (bounds_of shape.now) }
{
    let bounds = Bounds::of(shape);
    bounds.map(|its| its.tail)
}

impl Going {
    ghost use Rattle.std.specs.Prelude.{IfSome, None, true, is_some};
    ghost use Rattle.fkv_straight.specs.Met.{MayGo, MayPoll};
    ghost use Rattle.fkv_plane.specs.Places.{record_place};
    ghost use Rattle.fkv_map.specs.declared.operations.Op.{Op};
    ghost use Rattle.fkv_session.specs.Sessions.{Seat};
    ghost use Rattle.fkv_straight.specs.Course.{Course, Goes, GoesBy};
    ghost use Rattle.fkv_straight.specs.Memory.{is_in_memory};

    /// What the straight calls of the session go by, if it may make any: no call is in hand, it is awake and has room for a request, and version and spare
    /// bucket are ones that there are.
    #[inline(never)]
    pub fn look(machine: &Session) -> Option<Going>
        ensures { IfSome result (λ its. GoesBy machine.now.seat machine.now.state its) }
    {
        if machine.busy() || !machine.is_awake() || machine.is_full() {
            return None;
        }
        let places = machine.places();
        let shape = machine.shape();
        let seen = machine.seen();
        let version = seen.version.0;
        if version == 0 || version > Version::LAST {
            return None;
        }
        let spare = machine.spare();
        if spare > places.overflow as u64 {
            return None;
        }
        let head = seen.offsets.head.0;
        if head == 0 || head >= 1 << 62 {
            return None;
        }
        let own = mark(seen.version);
        let moves_on = is_moving_on(seen.phase);
        let prepares = is_preparing(seen.phase);
        let bound = bound_of(&shape);
        let floor = machine.floor();
        let first_bucket = places.bucket(0, 0);
        let frames = places.record(Addr(0), RecordWord::Header);
        Some(Going {
            places,
            first_bucket,
            frames,
            bits: shape.bucket_bits,
            bucket_mask: places.buckets as u64 - 1,
            head,
            floor: floor.0,
            read_only: seen.offsets.read_only.0,
            version,
            mark: own.0,
            is_moving_on: moves_on,
            is_preparing: prepares,
            bound,
        })
    }

    /// What a call of this operation goes by, if it may go straight: the session doesn't refuse it, and version and
    /// spare bucket are ones that there are.
    pub fn of(machine: &Session, op: Op) -> Option<Going>
        ensures { IfSome result (λ its. MayGo machine.now.seat machine.now.state op its) }
    {
        let going = Going::look(machine);
        let Some(its) = going else {
            return None;
        };
        let lets = its.lets(machine, op);
        if lets { Some(its) } else { None }
    }

    /// Whether a call of this operation may go straight by it: the session doesn't refuse it.
    #[inline]
    pub(crate) fn lets(&self, machine: &Session, op: Op) -> bool
        ensures { result ≡ true → GoesBy machine.now.seat machine.now.state self.now → MayGo machine.now.seat machine.now.state op self.now }
    {
        match op {
            Op::Read(_) => true,
            _ => {
                let reserved = op.is_reserved();
                let serial = machine.serial();
                !reserved && serial.0 < Serial::LAST
            }
        }
    }

    /// The update that a poll may try straight, if there is one: it alone waits, needs no record of the device, holds no latch, and is one of the
    /// session's version and floor. The session isn't in prepare.
    pub(crate) fn lone(&self, machine: &Session) -> Option<Lone>
        ensures { IfSome result (λ its. GoesBy machine.now.seat machine.now.state self.now → MayPoll machine.now.seat machine.now.state its self.now) }
    {
        let only = machine.only_request();
        let Some(pending) = only else {
            return None;
        };
        let RequestName::Update(serial) = pending.name else {
            return None;
        };
        let request = pending.request;
        let op = request.op;
        if pending.has_asked || pending.sought.is_some() {
            return None;
        }
        if request.has_latch || request.held.is_some() {
            return None;
        }
        let floor = machine.floor();
        if request.floor.0 != floor.0 {
            return None;
        }
        if request.version.0 != self.version || self.is_preparing {
            return None;
        }
        let reads = is_read(op);
        let orphaned = machine.is_orphaned();
        if reads || orphaned {
            return None;
        }
        Some(Lone { op, serial })
    }

    /// What a poll goes by: it has no bound.
    pub(crate) fn in_poll(&self) -> Going
        ensures goes { (c : Course) (k : Seat) (op : Op) → Goes c k op (record self.now { bound = None }) → Goes c k op result }
        ensures calm { result.is_preparing ≡ self.now.is_preparing }
    {
        let mut polling = *self;
        polling.bound = None;
        polling
    }

    /// Whether a call has a bound.
    #[inline]
    pub(crate) fn is_bounded(&self) -> bool
        ensures { result ≡ is_some self.now.bound }
    {
        self.bound.is_some()
    }

    /// The place of a word of the record at this address.
    #[inline]
    pub(crate) fn record(&self, addr: Addr, word: RecordWord) -> usize
        ensures { result ≡ record_place self.now.places addr.0 word }
    {
        let number = match word {
            RecordWord::Header => 0,
            RecordWord::Key => 1,
            RecordWord::Value => 2,
        };
        past_shared(self.frames + 3 * (addr.0 as usize & self.places.ring_mask) + number)
    }

    /// Whether the address of a chain lies within a ring from the head on. One below the head, as 0 is, wraps round to more than a ring.
    #[inline]
    #[tactic(auto, unfolding(crate::specs::Memory::is_in_memory))]
    pub(crate) fn is_in_memory(&self, addr: u64) -> bool
        ensures { result ≡ is_in_memory self.now.places.ring self.now.head addr }
    {
        addr.wrapping_sub(self.head) < self.places.ring as u64
    }
}
