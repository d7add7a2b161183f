//! What operations have met.
use crate::rivals::{has_mark, mark_of};
use fkv_base::{Addr, Fault, Phase};
use fkv_map::{Merge, Op};
use fkv_ops::{Bounds, Reason, Seen};
use fkv_plane::{Ask, Places, PlainWords, RecordWord, SessionWord, SharedWord};
use fkv_session::Told;

/// What an operation may be, or meet.
#[derive(Clone, Copy)]
pub(crate) enum Meeting {
    Read,
    Upsert,
    Delete,
    Add,
    Max,
    Keep,
    Min,
    Sub,
    And,
    Or,
    First,
    Rest,
    Prepare,
    InProgress,
    WaitPending,
    WaitFlush,
    /// An update of a session in prepare.
    UpdateInPrepare,
    /// A bucket whose seven slots have entries of other tags.
    FullBucket,
    OverflowBucket,
    /// More than three records of a chain.
    LongChain,
    /// A record below the read-only offset.
    ReadOnly,
    /// A chain that lies on the device alone, to which an update appends.
    OnDevice,
    /// It waits for the device, for room, for a latch, or since another session was quicker.
    Waits,
    /// Another session was quicker at the tail.
    LostTail,
    /// Another session was quicker at a record's value.
    LostValue,
    /// A read asks for a record of the device by its mailbox.
    Asks,
    /// A read needs a record of the device, and the mailbox isn't empty.
    Occupied,
    /// A poll finds no record in the mailbox.
    NotReady,
    /// A poll takes a record from the mailbox.
    Takes,
    /// A poll asks for the record before the one that it has taken.
    AsksOn,
    /// It takes the last overflow bucket that calls may take.
    LastBucket,
    /// It takes the last address that calls may take.
    LastAddress,
    /// It is refused, since the overflow buckets that are left are for polls.
    IndexFull,
    /// It is refused, since the addresses that are left are for polls.
    LogFull,
    /// A record that has the mark of the session's version, and was made 8,191 versions before.
    Alike,
    /// Such a record, of which a copy is made under the latch of its bucket.
    AlikeAlone,
}

const MEETINGS: usize = 36;

/// How many operations have met what.
#[derive(Clone, Copy)]
pub(crate) struct Meetings {
    pub(crate) all: u64,
    met: [u64; MEETINGS],
}

impl Meetings {
    pub(crate) fn new() -> Meetings {
        Meetings {
            all: 0,
            met: [0; MEETINGS],
        }
    }

    /// So many operations have met it.
    pub(crate) fn of(&self, meeting: Meeting) -> u64 {
        match self.met.get(meeting as usize) {
            Some(count) => *count,
            None => 0,
        }
    }

    fn count(&mut self, meeting: Meeting) {
        if let Some(count) = self.met.get_mut(meeting as usize) {
            *count = count.wrapping_add(1);
        }
    }

    /// An operation of a session that has seen this meets what its trace has.
    pub(crate) fn add(&mut self, op: Op, seen: Seen, trace: &Trace, told: Told) {
        self.all = self.all.wrapping_add(1);
        self.count(kind_of(op));
        self.count(phase_of(seen.phase));
        if matches!(seen.phase, Phase::Prepare) && !matches!(op, Op::Read(_)) {
            self.count(Meeting::UpdateInPrepare);
        }
        if matches!(told, Told::Pending(_, _) | Told::PendingRead(_)) {
            self.count(Meeting::Waits);
        }
        if matches!(told, Told::Pending(_, Reason::Contended)) {
            self.count(trace.lost());
        }
        if matches!(told, Told::PendingRead(_)) {
            self.count(trace.asked());
        }
        self.add_refusal(told);
        self.add_trace(trace);
        self.add_bounds(trace);
        self.add_marks(trace);
    }

    fn add_refusal(&mut self, told: Told) {
        match told {
            Told::Refused(Fault::IndexFull) => self.count(Meeting::IndexFull),
            Told::Refused(Fault::LogFull) => self.count(Meeting::LogFull),
            _ => {}
        }
    }

    /// A call in this phase.
    pub(crate) fn add_phase(&mut self, phase: Phase) {
        self.all = self.all.wrapping_add(1);
        self.count(phase_of(phase));
    }

    /// A poll in this phase.
    pub(crate) fn add_poll(&mut self, phase: Phase, trace: &Trace) {
        self.add_phase(phase);
        if trace.looks_into_mail {
            self.count(trace.taken());
        }
    }

    fn add_trace(&mut self, trace: &Trace) {
        if trace.is_full {
            self.count(Meeting::FullBucket);
        }
        if trace.overflows {
            self.count(Meeting::OverflowBucket);
        }
        if trace.records > 3 {
            self.count(Meeting::LongChain);
        }
        if trace.is_read_only {
            self.count(Meeting::ReadOnly);
        }
        if trace.is_on_device {
            self.count(Meeting::OnDevice);
        }
    }

    fn add_bounds(&mut self, trace: &Trace) {
        if trace.is_last_bucket {
            self.count(Meeting::LastBucket);
        }
        if trace.is_last_address {
            self.count(Meeting::LastAddress);
        }
    }

    fn add_marks(&mut self, trace: &Trace) {
        if trace.is_alike {
            self.count(Meeting::Alike);
        }
        if trace.is_alike && trace.is_alone {
            self.count(Meeting::AlikeAlone);
        }
    }
}

fn kind_of(op: Op) -> Meeting {
    match op {
        Op::Read(_) => Meeting::Read,
        Op::Upsert(_, _) => Meeting::Upsert,
        Op::Delete(_) => Meeting::Delete,
        Op::Add(_, _) => Meeting::Add,
        Op::Max(_, _) => Meeting::Max,
        Op::Merge(_, which, _) => kind_of_merge(which),
    }
}

fn kind_of_merge(which: Merge) -> Meeting {
    match which {
        Merge::Keep => Meeting::Keep,
        Merge::Min => Meeting::Min,
        Merge::Sub => Meeting::Sub,
        Merge::And => Meeting::And,
        Merge::Or => Meeting::Or,
        Merge::First => Meeting::First,
    }
}

fn phase_of(phase: Phase) -> Meeting {
    match phase {
        Phase::Rest => Meeting::Rest,
        Phase::Prepare => Meeting::Prepare,
        Phase::InProgress => Meeting::InProgress,
        Phase::WaitPending => Meeting::WaitPending,
        Phase::WaitFlush => Meeting::WaitFlush,
    }
}

/// Where the parts of a store's words begin: a session's mailbox, the buckets, the overflow buckets, and the records in memory. And how many records
/// memory has.
#[derive(Clone, Copy)]
pub(crate) struct Parts {
    mailbox: usize,
    buckets: usize,
    overflow: usize,
    frames: usize,
    ring: u64,
}

impl Parts {
    /// The mailbox is that of the session of this number.
    pub(crate) fn of(places: &Places, session: usize) -> Parts {
        let first = SessionWord::MailState.place(0);
        let frames = places.record(Addr(0), RecordWord::Header);
        let overflow = frames.saturating_sub(places.overflow.saturating_mul(8));
        let buckets = overflow.saturating_sub(places.buckets.saturating_mul(8));
        Parts {
            mailbox: first.saturating_add(session.saturating_mul(SESSION_WORDS)),
            buckets,
            overflow,
            frames,
            ring: places.ring as u64,
        }
    }

    /// Whether it is the place of a slot.
    pub(crate) fn is_slot(&self, place: usize) -> bool {
        let is_bucket = place >= self.buckets && place < self.frames;
        is_bucket && place.wrapping_sub(self.buckets) % 8 != 7
    }
}

/// What the asks of one call have met, by a session that has seen this, in a store with these bounds.
#[derive(Clone, Copy)]
pub(crate) struct Trace {
    parts: Parts,
    seen: Seen,
    bounds: Option<Bounds>,
    /// Below it are records that were aged.
    aged: Addr,
    is_full: bool,
    overflows: bool,
    records: u64,
    is_read_only: bool,
    is_on_device: bool,
    /// Whether its last Cas was one of the tail.
    is_at_tail: bool,
    /// Whether it has sought to take the last overflow bucket of those for calls, and the last address.
    is_last_bucket: bool,
    is_last_address: bool,
    /// Whether the last record that it has met was aged, and has the mark of the session's version.
    is_alike: bool,
    /// Whether it has sought a latch for itself alone.
    is_alone: bool,
    /// Whether it has loaded the state of the mailbox, taken a record from there, and stored an address there.
    looks_into_mail: bool,
    takes_mail: bool,
    puts_mail: bool,
}

impl Trace {
    pub(crate) fn new(parts: Parts, seen: Seen, bounds: Option<Bounds>, aged: Addr) -> Trace {
        Trace {
            parts,
            seen,
            bounds,
            aged,
            is_full: false,
            overflows: false,
            records: 0,
            is_read_only: false,
            is_on_device: false,
            is_at_tail: false,
            is_last_bucket: false,
            is_last_address: false,
            is_alike: false,
            is_alone: false,
            looks_into_mail: false,
            takes_mail: false,
            puts_mail: false,
        }
    }

    /// What it has met if its last Cas was lost.
    fn lost(&self) -> Meeting {
        if self.is_at_tail {
            Meeting::LostTail
        } else {
            Meeting::LostValue
        }
    }

    /// What a read has met that waits for the device.
    fn asked(&self) -> Meeting {
        if self.puts_mail {
            Meeting::Asks
        } else {
            Meeting::Occupied
        }
    }

    /// What a poll has met that has looked into the mailbox.
    fn taken(&self) -> Meeting {
        if self.puts_mail {
            Meeting::AsksOn
        } else if self.takes_mail {
            Meeting::Takes
        } else {
            Meeting::NotReady
        }
    }

    /// Notes what is asked of these words.
    pub(crate) fn note(&mut self, words: &PlainWords, ask: &Ask<Told>) {
        match ask {
            Ask::Load(place) => {
                self.note_load(*place);
                self.note_mark(*place, words.word(*place));
            }
            Ask::Store(place, _) => self.puts_mail = self.puts_mail
                || *place == self.parts.mailbox.wrapping_add(ADDRESS),
            Ask::Cas(place, old, new) => {
                self.note_cas(*place, *old & ADDR_MASK);
                self.note_last(*place, *old);
                self.is_alone = self.is_alone || *new == ALONE;
            }
            _ => {}
        }
    }

    fn note_cas(&mut self, place: usize, addr: u64) {
        self.is_at_tail = place == SharedWord::Tail.place();
        let is_slot = place >= self.parts.buckets && place < self.parts.frames;
        if is_slot && addr != 0 && addr < self.seen.offsets.head.0 {
            self.is_on_device = true;
        }
    }

    /// Whether it takes the last of what calls may take, if it finds this number.
    fn note_last(&mut self, place: usize, number: u64) {
        if let Some(bounds) = self.bounds {
            let next = number.wrapping_add(1);
            if place == SharedWord::Taken.place() && next == bounds.taken {
                self.is_last_bucket = true;
            }
            if place == SharedWord::Tail.place() && next == bounds.tail {
                self.is_last_address = true;
            }
        }
    }

    /// What a record's header says, if this is the place of one.
    fn note_mark(&mut self, place: usize, header: u64) {
        let behind = place.wrapping_sub(self.parts.frames);
        if place < self.parts.frames || behind % 3 != 0 {
            return;
        }
        let head = self.seen.offsets.head.0;
        let ahead = (behind as u64 / 3).wrapping_sub(head);
        let addr = match ahead.checked_rem(self.parts.ring) {
            Some(rest) => head.wrapping_add(rest),
            None => head,
        };
        self.is_alike = addr < self.aged.0 && has_mark(header, mark_of(self.seen.version));
    }

    fn note_load(&mut self, place: usize) {
        let parts = self.parts;
        self.looks_into_mail = self.looks_into_mail || place == parts.mailbox;
        self.takes_mail = self.takes_mail || place == parts.mailbox.wrapping_add(VALUE);
        if place >= parts.frames {
            if place.wrapping_sub(parts.frames) % 3 == 0 {
                self.records = self.records.wrapping_add(1);
            }
        } else if place >= parts.buckets {
            self.overflows = self.overflows || place >= parts.overflow;
            self.is_full = self.is_full || place.wrapping_sub(parts.buckets) % 8 == 7;
        } else if place == SharedWord::SafeReadOnly.place() {
            self.is_read_only = true;
        }
    }
}

const ADDR_MASK: u64 = (1 << 48) - 1;

/// A latch that one session holds alone.
const ALONE: u64 = 1 << 63;

/// So many words a session has, and so far behind the state of its mailbox are the address and the value there.
const SESSION_WORDS: usize = 16;

const ADDRESS: usize = 1;

const VALUE: usize = 4;
