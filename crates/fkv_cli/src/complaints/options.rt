//! Words behind the program's name that are refused.
use super::quoted::Quoted;
use std::fmt;

/// What is wrong with the words, as far as it is known.
#[derive(Clone, Copy)]
pub(crate) enum WordFault<'a> {
    /// The program knows no such word.
    Unknown(&'a str),
    /// No word stands behind this option, which needs a value.
    NoValue(&'a str),
    /// The word behind this option, which needs a value, is none.
    NotValue {
        option: &'a str,
        word: &'a str,
    },
    /// This option takes no value.
    NeedlessValue(&'a str),
    /// This option stands twice.
    Twice(&'a str),
    /// The value of this option is no number up to the most that it takes.
    NoNumber {
        option: &'a str,
        value: &'a str,
        most: u64,
    },
    /// A word is no UTF-8 text.
    NoText,
    /// They are refused for something else.
    Other,
}

impl<'a> WordFault<'a> {
    /// What is wrong with words that the program refuses.
    pub(crate) fn of(words: &[&'a str]) -> WordFault<'a> {
        match faulty_word(words) {
            Some(fault) => fault,
            None => repeated_option(words),
        }
    }
}

/// The first word that no command line has at its place.
fn faulty_word<'a>(words: &[&'a str]) -> Option<WordFault<'a>> {
    let mut waiting = None;
    let mut has_ended = false;
    for word in words {
        let word = *word;
        if has_ended {
            return Some(WordFault::Unknown(word));
        }
        match waiting {
            Some(option) => {
                if word.starts_with('-') && word != "-" {
                    return Some(WordFault::NotValue { option, word });
                }
                if let Some(fault) = faulty_value(option, word) {
                    return Some(fault);
                }
                waiting = None;
            }
            None => match read_option(word) {
                Reading::Whole => {}
                Reading::End => has_ended = true,
                Reading::Waits => waiting = Some(word),
                Reading::Faulty(fault) => return Some(fault),
            },
        }
    }
    match waiting {
        Some(option) => Some(WordFault::NoValue(option)),
        None => None,
    }
}

/// What a word says that is no option's value.
#[derive(Clone, Copy)]
enum Reading<'a> {
    Whole,
    /// `--`: no option stands behind it.
    End,
    /// An option whose value comes next.
    Waits,
    Faulty(WordFault<'a>),
}

fn read_option(word: &str) -> Reading<'_> {
    let (name, value) = match word.split_once('=') {
        Some((name, value)) => (name, Some(value)),
        None => (word, None),
    };
    match (name, value) {
        ("--", None) => Reading::End,
        ("--check" | "--threads", None) => Reading::Whole,
        ("--check" | "--threads", Some(_)) => Reading::Faulty(WordFault::NeedlessValue(name)),
        ("--seed" | "--torn" | "--file", None) => Reading::Waits,
        ("--seed" | "--torn" | "--file", Some(value)) => match faulty_value(name, value) {
            Some(fault) => Reading::Faulty(fault),
            None => Reading::Whole,
        },
        _ => Reading::Faulty(WordFault::Unknown(word)),
    }
}

/// What is wrong with an option's value.
fn faulty_value<'a>(option: &'a str, value: &'a str) -> Option<WordFault<'a>> {
    let most = match option {
        "--seed" => u64::MAX,
        "--torn" => 255,
        _ => return None,
    };
    match value.parse::<u64>() {
        Ok(number) if number <= most => None,
        _ => Some(WordFault::NoNumber {
            option,
            value,
            most,
        }),
    }
}

/// The option that stands twice.
fn repeated_option<'a>(words: &[&'a str]) -> WordFault<'a> {
    for option in ["--seed", "--threads", "--check", "--torn", "--file"] {
        if words.iter().filter(|word| is_option(word, option)).count() > 1 {
            return WordFault::Twice(option);
        }
    }
    WordFault::Other
}

fn is_option(word: &str, option: &str) -> bool {
    match word.split_once('=') {
        Some((name, _)) => name == option,
        None => word == option,
    }
}

impl fmt::Display for WordFault<'_> {
    fn fmt<W: fmt::Write>(&self, f: &mut fmt::Formatter<W>) -> fmt::Result {
        match self {
            WordFault::Unknown(word) => {
                let word = Quoted(word.as_bytes());
                write!(f, "the word {word} is unknown")?;
            }
            WordFault::NoValue(option) => write!(f, "{option} needs a value")?,
            WordFault::NotValue { option, word } => {
                let word = Quoted(word.as_bytes());
                write!(f, "{option} needs a value, and {word} is none")?;
            }
            WordFault::NeedlessValue(option) => write!(f, "{option} takes no value")?,
            WordFault::Twice(option) => write!(f, "{option} stands twice")?,
            WordFault::NoNumber {
                option,
                value,
                most,
            } => {
                let value = Quoted(value.as_bytes());
                write!(
                    f,
                    "{option} needs a number from 0 to {most}, and {value} is none"
                )?;
            }
            WordFault::NoText => f.write_str("a word is no UTF-8 text")?,
            WordFault::Other => f.write_str("these words don't go together")?,
        }
        Ok(())
    }
}
