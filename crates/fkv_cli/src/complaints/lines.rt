//! Faulty lines of a script.
use super::quoted::Quoted;
use fkv_base::ScriptFault;
use fkv_lines::{MOST_BYTES, MOST_LINES};
use std::{fmt, str};

/// What is wrong with a line, and with which of its words.
#[derive(Clone, Copy)]
pub(crate) enum LineFault<'a> {
    /// The line has more bytes than a line may have.
    TooLong,
    /// The line stands behind the last that a script may have.
    TooMany,
    /// The script's first line begins with this word, which opens no store.
    NoOpening(Quoted<'a>),
    /// A later line begins with this word, which opens a store.
    SecondOpening(Quoted<'a>),
    /// This word is unknown here.
    Unknown {
        word: Quoted<'a>,
        known: &'static str,
    },
    /// Behind this word stand more or fewer words than it takes.
    Count {
        word: Quoted<'a>,
        takes: &'static str,
        given: usize,
    },
    /// This word should be a number, and no less than this.
    NoNumber {
        word: Quoted<'a>,
        least: u64,
    },
    /// This line needs a store in a file.
    NeedsFile(Quoted<'a>),
    /// This line needs a store in memory.
    NeedsMemory(Quoted<'a>),
}

impl<'a> LineFault<'a> {
    /// What is wrong with the line of this number, which has a fault of this kind.
    pub(crate) fn of(script: &'a [u8], number: u64, kind: ScriptFault) -> LineFault<'a> {
        let line = line_at(script, number);
        let head = word_at(line, 0);
        match kind {
            ScriptFault::Size if line.len() > MOST_BYTES => LineFault::TooLong,
            ScriptFault::Size => LineFault::TooMany,
            ScriptFault::Order if is_opening(head) => LineFault::SecondOpening(Quoted(head)),
            ScriptFault::Order => LineFault::NoOpening(Quoted(head)),
            ScriptFault::Word => unknown_word(script, line, head),
            ScriptFault::Count => wrong_count(script, line, head),
            ScriptFault::Number => no_number(line, head),
            ScriptFault::Mode if is_opening(head) => LineFault::NeedsFile(Quoted(head)),
            ScriptFault::Mode => LineFault::NeedsMemory(Quoted(head)),
        }
    }
}

/// The line of this number, counted from 1; nothing where there is none.
fn line_at(script: &[u8], number: u64) -> &[u8] {
    let Ok(place) = usize::try_from(number.saturating_sub(1)) else {
        return &[];
    };
    match script.split(|byte| *byte == b'\n').nth(place) {
        Some(line) => line,
        None => &[],
    }
}

/// The word at this place of a line, counted from 0; nothing where there is none.
fn word_at(line: &[u8], place: usize) -> &[u8] {
    let mut words = line
        .split(|byte| *byte == b' ')
        .filter(|word| !word.is_empty());
    match words.nth(place) {
        Some(word) => word,
        None => &[],
    }
}

fn count_words(line: &[u8]) -> usize {
    line.split(|byte| *byte == b' ')
        .filter(|word| !word.is_empty())
        .count()
}

fn is_opening(head: &[u8]) -> bool {
    matches!(head, b"shape" | b"large" | b"open")
}

fn is_session(head: &[u8]) -> bool {
    matches!(head, [b'0'..=b'9', ..])
}

/// Whether the script makes a living store: behind that line alone there are merges and trims.
fn opens_living(script: &[u8]) -> bool {
    for line in script.split(|byte| *byte == b'\n') {
        match word_at(line, 0) {
            b"" | [b'#', ..] => {}
            head => return head == b"large".as_slice(),
        }
    }
    false
}

/// What a place takes behind a session's number.
fn verbs(script: &[u8]) -> &'static str {
    if opens_living(script) {
        "up, del, add, max, get, keep, min, sub, and, or, first, refresh, poll, sleep or wake"
    } else {
        "up, del, add, max, get, refresh, poll, sleep or wake"
    }
}

/// What `k commit` takes behind it.
fn commits(script: &[u8]) -> &'static str {
    if opens_living(script) {
        "log, trim or nothing"
    } else {
        "log or nothing"
    }
}

fn unknown_word<'a>(script: &'a [u8], line: &'a [u8], head: &'a [u8]) -> LineFault<'a> {
    let verb = word_at(line, 1);
    let (word, known) = match (head, verb) {
        ([b'0'..=b'9', ..], _) => (verb, verbs(script)),
        (b"k", b"commit") => (word_at(line, 2), commits(script)),
        (b"k", _) => (verb, "commit, turn or finish"),
        _ => (head, "a session's number, k, crash or fail"),
    };
    let word = Quoted(word);
    LineFault::Unknown { word, known }
}

/// What a verb takes behind it.
fn taken_by(script: &[u8], verb: &[u8]) -> &'static str {
    match verb {
        b"" => "a verb",
        b"shape" | b"large" => "seven numbers",
        b"crash" => "the number of a call or nothing",
        b"fail" => "the number of a call",
        b"commit" => commits(script),
        b"up" | b"add" | b"max" | b"min" | b"sub" | b"and" | b"or" | b"first" => "two numbers",
        b"del" | b"get" | b"keep" => "one number",
        _ => "no word",
    }
}

fn wrong_count<'a>(script: &'a [u8], line: &'a [u8], head: &'a [u8]) -> LineFault<'a> {
    // A session's number, or `k`, stands before the verb.
    let place = if is_session(head) || head == b"k".as_slice() {
        1
    } else {
        0
    };
    let verb = word_at(line, place);
    let given = count_words(line).saturating_sub(place).saturating_sub(1);
    let takes = taken_by(script, verb);
    let word = Quoted(if verb.is_empty() { head } else { verb });
    LineFault::Count { word, takes, given }
}

fn no_number<'a>(line: &'a [u8], head: &'a [u8]) -> LineFault<'a> {
    let least = if matches!(head, b"crash" | b"fail") {
        1
    } else {
        0
    };
    let first = if is_session(head) { 2 } else { 1 };
    let mut words = line
        .split(|byte| *byte == b' ')
        .filter(|word| !word.is_empty())
        .skip(first);
    // The session's own number is read last.
    let word = match words.find(|word| !is_number(word, least)) {
        Some(word) => Quoted(word),
        None => Quoted(head),
    };
    LineFault::NoNumber { word, least }
}

/// Whether a word spells a number from `least` to 2^64 - 1, in digits alone.
fn is_number(word: &[u8], least: u64) -> bool {
    if !word.iter().all(|byte| byte.is_ascii_digit()) {
        return false;
    }
    let Ok(digits) = str::from_utf8(word) else {
        return false;
    };
    match digits.parse::<u64>() {
        Ok(number) => number >= least,
        Err(_) => false,
    }
}

impl fmt::Display for LineFault<'_> {
    fn fmt<W: fmt::Write>(&self, f: &mut fmt::Formatter<W>) -> fmt::Result {
        let most = u64::MAX;
        match self {
            LineFault::TooLong => write!(f, "it has more than {MOST_BYTES} bytes"),
            LineFault::TooMany => write!(f, "a script has at most {MOST_LINES} lines"),
            LineFault::NoOpening(word) => write!(
                f,
                "{word} opens no store, and the first line has to: shape, large or open"
            ),
            LineFault::SecondOpening(word) => write!(
                f,
                "{word} opens a store, which the first line alone does"
            ),
            LineFault::Unknown { word, known } => write!(
                f,
                "{word} is unknown; this place takes {known}"
            ),
            LineFault::Count { word, takes, given } => {
                let many = if *given == 1 { "" } else { "s" };
                write!(
                    f,
                    "{word} takes {takes}, and has {given} word{many} behind it"
                )
            }
            LineFault::NoNumber { word, least } => write!(
                f,
                "{word} is no number from {least} to {most}"
            ),
            LineFault::NeedsFile(word) => write!(f, "{word} needs a store in a file: --file PATH"),
            LineFault::NeedsMemory(word) => write!(
                f,
                "{word} is for a store in memory: not with --file"
            ),
        }
    }
}
