//! Words that were spelled by hand, and what each says; none where it says nothing.
use fkv_base::{Addr, Key, Phase, Serial, Version};
use fkv_words::{
    BucketTail, CutWord, Entry, Header, PhaseSaid, PhaseWord, WidePhase, bucket_of, phase_said,
    tag_of,
};
use std::process::Abort;

const BIT_13: u64 = 8192;

const BIT_19: u64 = 524288;

const BIT_51: u64 = 2251799813685248;

const BIT_61: u64 = 2305843009213693952;

const BIT_63: u64 = 9223372036854775808;

/// A header has a version, and bits 61 and 63 are 0.
fn headers(rt: &impl Abort) {
    let first = Header {
        previous: Addr(0),
        version: Version(1),
        invalid: false,
    };
    let given_up = Header {
        previous: Addr(0),
        version: Version(1),
        invalid: true,
    };
    for (word, said) in [
        (281474976710656, Some(first)),
        (4611967493404098560, Some(given_up)),
        (0, None),
        (BIT_61 + 281474976710656, None),
        (BIT_63 + 281474976710656, None),
    ] {
        assert!(rt; Header::unpack(word) == said, "{word}");
        if let Some(header) = said {
            assert!(rt; header.pack() == word);
        }
    }
}

/// A slot may be empty. No entry has address 0, and bit 63 is 0.
fn entries(rt: &impl Abort) {
    let entry = Entry {
        addr: Addr(5),
        tag: 3,
    };
    for (word, said) in [
        (844424930131973, Some(entry)),
        (0, None),
        (844424930131968, None),
        (BIT_63 + 5, None),
    ] {
        assert!(rt; Entry::unpack(word) == said, "{word}");
        if let Some(entry) = said {
            assert!(rt; entry.pack() == word);
        }
    }
}

fn tails(rt: &impl Abort) {
    let tail = BucketTail {
        overflow: 2,
        shared: 1,
        exclusive: true,
    };
    assert!(rt; tail.pack() == 9223653511831486466);
    assert!(rt; BucketTail::unpack(9223653511831486466) == Some(tail));
}

/// Bit 61 of a cut is 0.
fn cuts(rt: &impl Abort) {
    let cut = CutWord {
        serial: Serial(9),
        version: Version(2),
    };
    assert!(rt; cut.pack() == 562949953421321);
    assert!(rt; CutWord::unpack(562949953421321) == Some(cut));
    assert!(rt; CutWord::unpack(BIT_61).is_none());
}

/// The phase stands above bit 16. There is no version 0 and no phase 5, and bits 13 and 19 are 0.
fn phases(rt: &impl Abort) {
    let flush = PhaseWord {
        version: Version(7),
        phase: Phase::WaitFlush,
    };
    let pending = PhaseWord {
        version: Version(7),
        phase: Phase::WaitPending,
    };
    for (word, said) in [
        (262151, Some(flush)),
        (196615, Some(pending)),
        (262144, None),
        (65536, None),
        (327687, None),
        (BIT_13 + 7, None),
        (BIT_19 + 7, None),
    ] {
        assert!(rt; PhaseWord::unpack(word) == said, "{word}");
        if let Some(phase) = said {
            assert!(rt; phase.pack() == word);
        }
    }
}

/// From bit 19 on stands what a version has above its low thirteen bits. There is no version 0 and no phase 5, and bits
/// 13 and 51 are 0.
fn wide_phases(rt: &impl Abort) {
    let flush = WidePhase {
        version: Version(7),
        phase: Phase::WaitFlush,
    };
    let first_wide = WidePhase {
        version: Version(8192),
        phase: Phase::Prepare,
    };
    let last = WidePhase {
        version: Version(WidePhase::LAST),
        phase: Phase::WaitFlush,
    };
    for (word, said) in [
        (262151, Some(flush)),
        (BIT_19 + 65536, Some(first_wide)),
        (2251799813431295, Some(last)),
        (262144, None),
        (327687, None),
        (BIT_13 + 7, None),
        (BIT_51 + 7, None),
    ] {
        assert!(rt; WidePhase::unpack(word) == said, "{word}");
        if let Some(phase) = said {
            assert!(rt; phase.pack() == word);
        }
    }
}

/// A word that says no phase is spoiled.
fn phases_are_said(rt: &impl Abort) {
    let said = phase_said(196615);
    assert!(rt; matches!(said, PhaseSaid::Says(Phase::WaitPending, Version(7))));
    let past_marks = phase_said(196615 + BIT_19);
    assert!(rt;
        matches!(
            past_marks,
            PhaseSaid::Says(Phase::WaitPending, Version(8199))
        )
    );
    for word in [65536, 196615 + BIT_13, 196615 + BIT_51] {
        assert!(rt; matches!(phase_said(word), PhaseSaid::Spoiled), "{word}");
    }
}

/// By key and bits: the bucket and the tag.
fn homes(rt: &impl Abort) {
    for (key, bits, bucket, tag) in [(524291, 4, 3, 0), (19, 4, 3, 1), (19, 0, 0, 19)] {
        let found = (bucket_of(Key(key), bits), tag_of(Key(key), bits));
        assert!(rt; found == (bucket, tag));
    }
}

#[test]
fn words_are_as_they_were_spelled(rt: HostRuntime) {
    headers(&rt);
    entries(&rt);
    tails(&rt);
    cuts(&rt);
    phases(&rt);
    wide_phases(&rt);
    phases_are_said(&rt);
    homes(&rt);
}
