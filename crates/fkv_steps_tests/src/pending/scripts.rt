//! What is asked of a mailbox, and what attempts ask, script by script.
use super::*;

const DONE: TryAnswer = TryAnswer::Done(Reply::Number(Value(15)));

const AWAITED: TryAnswer = TryAnswer::Wait(Reason::Disk);

/// What is asked of a mailbox that is empty, of one whose record is under way, and of one that has it.
pub const ERRANDS: &[Errand<'static>] = &[
    Errand {
        words: &[],
        task: MailTask::Put(Addr(4)),
        asks: &[
            Ask::Load(STATE),
            Ask::Store(ADDRESS, 4),
            Ask::Store(STATE, 1),
            Ask::Done(MailAnswer::Asked),
        ],
    },
    Errand {
        words: &[(STATE, 1)],
        task: MailTask::Put(Addr(2)),
        asks: &[Ask::Load(STATE), Ask::Done(MailAnswer::Occupied)],
    },
    Errand {
        words: &[(STATE, 1)],
        task: MailTask::Take,
        asks: &[Ask::Load(STATE), Ask::Done(MailAnswer::NotReady)],
    },
    Errand {
        words: &[(STATE, 1)],
        task: MailTask::Clear,
        asks: &[Ask::Load(STATE), Ask::Done(MailAnswer::NotReady)],
    },
    Errand {
        words: SERVED,
        task: MailTask::Take,
        asks: &[
            Ask::Load(STATE),
            Ask::Load(HEADER_WORD),
            Ask::Load(KEY_WORD),
            Ask::Load(VALUE_WORD),
            Ask::Store(STATE, 0),
            Ask::Done(MailAnswer::Taken(MailRecord {
                header: ONE,
                key: KEY,
                value: 10,
            })),
        ],
    },
    Errand {
        words: SERVED,
        task: MailTask::Clear,
        asks: &[
            Ask::Load(STATE),
            Ask::Store(STATE, 0),
            Ask::Done(MailAnswer::Cleared),
        ],
    },
];

/// The words of a mailbox that has the key's record, the last of its chain; one that has another key's before it; and two more that end
/// their chains: the key has no value by one, and another key is the other's.
const SERVED: &[(usize, u64)] = &[
    (HEADER_WORD, ONE),
    (KEY_WORD, 3),
    (VALUE_WORD, 10),
    (STATE, 2),
];

const SERVED_OTHER: &[(usize, u64)] = &[
    (HEADER_WORD, 2 + ONE),
    (KEY_WORD, 32771),
    (VALUE_WORD, 7),
    (STATE, 2),
];

const SERVED_ABSENT: &[(usize, u64)] = &[
    (HEADER_WORD, ONE),
    (KEY_WORD, 3),
    (VALUE_WORD, Value::ABSENT),
    (STATE, 2),
];

const SERVED_NONE: &[(usize, u64)] = &[
    (HEADER_WORD, ONE),
    (KEY_WORD, 32771),
    (VALUE_WORD, 10),
    (STATE, 2),
];

/// The words of a mailbox whose record lies below the begin, which is 5.
const SERVED_GONE: &[(usize, u64)] = &[
    (HEADER_WORD, 0),
    (KEY_WORD, 5),
    (VALUE_WORD, 0),
    (STATE, 2),
];

/// It awaits the record of the entry, and has asked for it.
const AWAITS: Wait = Wait {
    sought: Some(DiskRecord {
        entry: ENTRY,
        addr: Addr(4),
    }),
    has_asked: true,
    held: None,
    floor: Addr(1),
};

/// It awaits the record before that.
const AWAITS_OLDER: Wait = Wait {
    sought: Some(DiskRecord {
        entry: ENTRY,
        addr: Addr(2),
    }),
    has_asked: true,
    held: None,
    floor: Addr(1),
};

/// It was told that the log begins at 5, so its record is gone.
const GONE: Wait = Wait {
    sought: None,
    has_asked: false,
    held: None,
    floor: Addr(5),
};

/// The log began at 3 when it began.
const AWAITS_FROM_THIRD: Wait = Wait {
    floor: Addr(3),
    ..AWAITS
};

/// What came is another key's.
const OTHER_HELD: HeldRecord = HeldRecord {
    entry: ENTRY,
    previous: Addr(2),
    key: OTHER,
    value: 7,
};

/// A record that has come is taken out of the mailbox.
const TAKES: &[Ask<TryAnswer>] = &[
    Ask::Load(STATE),
    Ask::Load(HEADER_WORD),
    Ask::Load(KEY_WORD),
    Ask::Load(VALUE_WORD),
    Ask::Store(STATE, 0),
];

/// An add of a record on the device.
const ADDED: &[Step<'static>] = &[
    Step {
        words: &[],
        occasion: Occasion::Call(None),
        asks: &[&[
            Ask::Load(SLOT),
            Ask::Load(STATE),
            Ask::Store(ADDRESS, 4),
            Ask::Store(STATE, 1),
            Ask::Done(AWAITED),
        ]],
        left: Some(AWAITS),
        is_orphaned: false,
    },
    // its mail is under way: it is tried, and asks for nothing
    Step {
        words: &[],
        occasion: Occasion::Poll,
        asks: &[&[Ask::Load(STATE), Ask::Load(SLOT), Ask::Done(AWAITED)]],
        left: Some(AWAITS),
        is_orphaned: false,
    },
    // the record is another key's
    Step {
        words: SERVED_OTHER,
        occasion: Occasion::Poll,
        asks: &[
            TAKES,
            &[
                Ask::Load(SLOT),
                Ask::Store(ADDRESS, 2),
                Ask::Store(STATE, 1),
                Ask::Done(AWAITED),
            ],
        ],
        left: Some(Wait {
            held: Some(OTHER_HELD),
            ..AWAITS_OLDER
        }),
        is_orphaned: false,
    },
    // and the one before it the key's
    Step {
        words: SERVED,
        occasion: Occasion::Poll,
        asks: &[
            TAKES,
            &[
                Ask::Load(SLOT),
                Ask::Load(4),
                Ask::Load(3),
                Ask::Cas(3, 6, 7),
                Ask::Store(84, 15),
                Ask::Store(83, 3),
                Ask::Store(82, 4 + 2 * ONE),
                Ask::Cas(SLOT, ENTRY, 6 + 3 * ONE),
                Ask::Done(DONE),
            ],
        ],
        left: None,
        is_orphaned: false,
    },
];

/// A read that seeks no record is tried again.
const SEEKS_NOTHING: &[Step<'static>] = &[Step {
    words: &[],
    occasion: Occasion::Poll,
    asks: &[&[
        Ask::Load(SLOT),
        Ask::Load(STATE),
        Ask::Store(ADDRESS, 4),
        Ask::Store(STATE, 1),
        Ask::Done(AWAITED),
    ]],
    left: Some(AWAITS),
    is_orphaned: false,
}];

/// A read of a record on the device, whose mailbox is another's at first: then it is not tried again.
const READ_ON: &[Step<'static>] = &[
    Step {
        words: &[(STATE, 1)],
        occasion: Occasion::Call(None),
        asks: &[&[Ask::Load(SLOT), Ask::Load(STATE), Ask::Done(AWAITED)]],
        left: Some(Wait {
            has_asked: false,
            ..AWAITS
        }),
        is_orphaned: false,
    },
    Step {
        words: &[(STATE, 0)],
        occasion: Occasion::Poll,
        asks: &[&[
            Ask::Load(STATE),
            Ask::Store(ADDRESS, 4),
            Ask::Store(STATE, 1),
            Ask::Done(AWAITED),
        ]],
        left: Some(AWAITS),
        is_orphaned: false,
    },
    Step {
        words: &[],
        occasion: Occasion::Poll,
        asks: &[&[Ask::Load(STATE), Ask::Done(AWAITED)]],
        left: Some(AWAITS),
        is_orphaned: false,
    },
    Step {
        words: SERVED_OTHER,
        occasion: Occasion::Poll,
        asks: &[
            TAKES,
            &[
                Ask::Store(ADDRESS, 2),
                Ask::Store(STATE, 1),
                Ask::Done(AWAITED),
            ],
        ],
        left: Some(AWAITS_OLDER),
        is_orphaned: false,
    },
    Step {
        words: SERVED,
        occasion: Occasion::Poll,
        asks: &[TAKES, &[Ask::Done(TryAnswer::Found(Value(10)))]],
        left: None,
        is_orphaned: false,
    },
];

/// The key has no value.
const READ_ABSENT: &[Step<'static>] = &[Step {
    words: SERVED_ABSENT,
    occasion: Occasion::Poll,
    asks: &[TAKES, &[Ask::Done(TryAnswer::Absent)]],
    left: None,
    is_orphaned: false,
}];

/// The key has no record.
const READ_NONE: &[Step<'static>] = &[Step {
    words: SERVED_NONE,
    occasion: Occasion::Poll,
    asks: &[TAKES, &[Ask::Done(TryAnswer::Absent)]],
    left: None,
    is_orphaned: false,
}];

/// While its mail is under way another session publishes a record of the key, which is then changed in place.
const MAIL_FOR_NOBODY: &[Step<'static>] = &[Step {
    words: &[
        (STATE, 1),
        (SLOT, 5 + 3 * ONE),
        (79, 4 + 2 * ONE),
        (80, 3),
        (81, 10),
    ],
    occasion: Occasion::Poll,
    asks: &[&[
        Ask::Load(STATE),
        Ask::Load(SLOT),
        Ask::Load(79),
        Ask::Load(80),
        Ask::Load(81),
        Ask::Cas(81, 10, 15),
        Ask::Done(DONE),
    ]],
    left: None,
    is_orphaned: true,
}];

/// The record that comes was read along a walk from an entry that has changed meanwhile: it is let go.
const ANOTHER_ENTRY: &[Step<'static>] = &[Step {
    words: SERVED,
    occasion: Occasion::Poll,
    asks: &[
        TAKES,
        &[
            Ask::Load(SLOT),
            Ask::Store(ADDRESS, 4),
            Ask::Store(STATE, 1),
            Ask::Done(AWAITED),
        ],
    ],
    left: Some(AWAITS),
    is_orphaned: false,
}];

/// The record of a read is gone, which tells nothing of the key.
const IS_GONE: Step<'static> = Step {
    words: SERVED_GONE,
    occasion: Occasion::Poll,
    asks: &[TAKES, &[Ask::Done(AWAITED)]],
    left: Some(GONE),
    is_orphaned: false,
};

/// A new record of the key, made of none.
const MAKES: &[Ask<TryAnswer>] = &[
    Ask::Load(SLOT),
    Ask::Load(4),
    Ask::Load(3),
    Ask::Cas(3, 6, 7),
    Ask::Store(84, 5),
    Ask::Store(83, 3),
    Ask::Store(82, 4 + 2 * ONE),
    Ask::Cas(SLOT, ENTRY, 6 + 3 * ONE),
    Ask::Done(TryAnswer::Done(Reply::Number(Value(5)))),
];

/// It is tried from its entry again: that leads below the begin, so the key is absent.
const READ_GONE: &[Step<'static>] = &[
    IS_GONE,
    Step {
        words: &[],
        occasion: Occasion::Poll,
        asks: &[&[Ask::Load(SLOT), Ask::Done(TryAnswer::Absent)]],
        left: None,
        is_orphaned: false,
    },
];

/// While its mail was under way the key was kept by a new record.
const READ_GONE_OF_A_KEPT_KEY: &[Step<'static>] = &[
    IS_GONE,
    Step {
        words: &[(SLOT, 5 + 3 * ONE), (79, 4 + 2 * ONE), (80, 3), (81, 10)],
        occasion: Occasion::Poll,
        asks: &[&[
            Ask::Load(SLOT),
            Ask::Load(79),
            Ask::Load(80),
            Ask::Load(81),
            Ask::Done(TryAnswer::Found(Value(10))),
        ]],
        left: None,
        is_orphaned: false,
    },
];

/// What it held is dropped too, and it is tried at once.
const ADD_GONE: &[Step<'static>] = &[Step {
    words: SERVED_GONE,
    occasion: Occasion::Poll,
    asks: &[TAKES, MAKES],
    left: None,
    is_orphaned: false,
}];

/// The record before the one that came lies below the floor: the chain has ended.
const READ_ENDS_BELOW: &[Step<'static>] = &[Step {
    words: SERVED_OTHER,
    occasion: Occasion::Poll,
    asks: &[TAKES, &[Ask::Done(TryAnswer::Absent)]],
    left: None,
    is_orphaned: false,
}];

const ADD_ENDS_BELOW: &[Step<'static>] = &[Step {
    words: SERVED_OTHER,
    occasion: Occasion::Poll,
    asks: &[TAKES, MAKES],
    left: None,
    is_orphaned: false,
}];

pub const SCRIPTS: &[(Op, Option<Wait>, &[Step<'static>])] = &[
    (Op::Add(KEY, 5), None, ADDED),
    (Op::Read(KEY), None, SEEKS_NOTHING),
    (Op::Read(KEY), None, READ_ON),
    (Op::Read(KEY), Some(AWAITS), READ_ABSENT),
    (Op::Read(KEY), Some(AWAITS), READ_NONE),
    (Op::Add(KEY, 5), Some(AWAITS), MAIL_FOR_NOBODY),
    (
        Op::Add(KEY, 5),
        Some(Wait {
            sought: Some(DiskRecord {
                entry: 3 + 3 * ONE,
                addr: Addr(3),
            }),
            ..AWAITS
        }),
        ANOTHER_ENTRY,
    ),
    (Op::Read(KEY), Some(AWAITS), READ_GONE),
    (Op::Read(KEY), Some(AWAITS_OLDER), READ_GONE_OF_A_KEPT_KEY),
    (
        Op::Add(KEY, 5),
        Some(Wait {
            held: Some(OTHER_HELD),
            ..AWAITS_OLDER
        }),
        ADD_GONE,
    ),
    (Op::Read(KEY), Some(AWAITS_FROM_THIRD), READ_ENDS_BELOW),
    (Op::Add(KEY, 5), Some(AWAITS_FROM_THIRD), ADD_ENDS_BELOW),
];
