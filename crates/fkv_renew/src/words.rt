//! The words after the program's name.
ghost use Rattle.std.specs.Prelude.{◌≡◌, ◌≢◌, Option};
ghost use Rattle.fkv_renew.specs.Said as said;

use crate::sizes::read_sizes;
use clap::error::ErrorKind;
use clap::{Arg, ArgAction, Command, value_parser};
use fkv_base::StoreClass;
use fkv_lines::Sizes;
use fkv_spread::Keys;
use std::alloc::{AllocError, Global};

/// What the words ask for.
#[derive(Clone, Copy)]
pub(crate) struct Asked<'a> {
    /// The file of the store that is renewed.
    pub(crate) old: &'a str,
    /// The file that the new store comes to lie in.
    pub(crate) new: &'a str,
    /// The sizes of the new store, where some are given.
    pub(crate) sizes: Option<Sizes>,
    /// How the old store's keys come to lie in the new one.
    pub(crate) keys: Keys,
}

/// Why nothing is asked for.
#[derive(Clone, Copy)]
pub(crate) enum WordFault {
    /// Memory was refused.
    Memory,
    /// The words are refused.
    Refused,
}

impl From<AllocError> for WordFault {
    ghost use Rattle.fkv_renew.specs.declared.words.WordFault.TheVariants.{Memory};

    ghost from_gives = { λ _ fault. fault ≡ Memory };

    fn from(_error: AllocError) -> WordFault {
        WordFault::Memory
    }
}

/// What the words after the program's name ask for: OLD and NEW, two files; `--shape` or `--large` with seven numbers below 2^64, where
/// one of them is there; and `--spread`, where it is there.
pub(crate) fn asked_of<'a>(alloc: Global, words: &'a [&'a str]) -> Result<Asked<'a>, WordFault>
    ensures { said.TellsAsked (said.texts words.now) result }
{
    let command = command_of(alloc)?;
    let matches = match command.try_get_matches_from(words) {
        Ok(matches) => matches,
        Err(error) => return Err(refused_as(error.kind())),
    };
    let Some(old) = matches.get_str("OLD") else {
        return Err(WordFault::Refused);
    };
    let Some(new) = matches.get_str("NEW") else {
        return Err(WordFault::Refused);
    };
    let keys = keys_of(matches.get_one::<bool>("spread").unwrap_or(false));
    match sizes_of(matches.get_strs("shape"), matches.get_strs("large")) {
        Ok(sizes) => Ok(Asked {
            old,
            new,
            sizes,
            keys,
        }),
        Err(fault) => Err(fault),
    }
}

/// How a parse was refused.
fn refused_as(kind: ErrorKind) -> WordFault
    ensures memory { kind ≡ ErrorKind.OutOfMemory → result ≡ WordFault.Memory }
    ensures other { kind ≢ ErrorKind.OutOfMemory → result ≡ WordFault.Refused }
{
    match kind {
        ErrorKind::OutOfMemory => WordFault::Memory,
        _ => WordFault::Refused,
    }
}

/// How keys come to lie, with `--spread` or without it.
fn keys_of(spread: bool) -> Keys
    ensures { result ≡ said.keys_by spread }
{
    if spread {
        Keys::Spread
    } else {
        Keys::AsTheyAre
    }
}

/// The sizes that stand behind `--shape` or `--large`.
fn sizes_of(small: Option<&[&str]>, large: Option<&[&str]>) -> Result<Option<Sizes>, WordFault>
    ensures ok { said.IfOk result (said.AreAskedSizes (said.option_map (λ s. said.texts s.now) small.entry) (said.option_map (λ s. said.texts s.now) large.entry)) }
    ensures err { said.IfErr result (λ fault. (fault ≡ WordFault.Refused) × ((sizes : Option said.TheSizes) → said.AreAskedSizes (said.option_map (λ s. said.texts s.now) small.entry) (said.option_map (λ s. said.texts s.now) large.entry) sizes → ⊥)) }
{
    match (small, large) {
        (None, None) => Ok(None),
        (Some(words), None) => match read_sizes(StoreClass::Specified, words) {
            Some(sizes) => Ok(Some(sizes)),
            None => Err(WordFault::Refused),
        },
        (None, Some(words)) => match read_sizes(StoreClass::Living, words) {
            Some(sizes) => Ok(Some(sizes)),
            None => Err(WordFault::Refused),
        },
        (Some(_), Some(_)) => Err(WordFault::Refused),
    }
}

/// How many numbers the sizes of a store are.
const SIZES: usize = 7;

/// The command line.
fn command_of<'a>(alloc: Global) -> Result<Command<'a>, AllocError>
    ensures { said.IfOk result (λ command. said.app_of command ≡ said.command_line) }
{
    let old = Arg::new(alloc, "OLD").required(true);
    let new = Arg::new(alloc, "NEW").required(true);
    let shape = Arg::new(alloc, "shape")
        .long("shape")
        .num_args(SIZES)
        .value_parser(value_parser!(u64));
    let large = Arg::new(alloc, "large")
        .long("large")
        .num_args(SIZES)
        .value_parser(value_parser!(u64));
    let spread = Arg::new(alloc, "spread")
        .long("spread")
        .action(ArgAction::SetTrue);
    Command::new(alloc, "fkv_renew")
        .no_binary_name(true)
        .disable_help_flag(true)
        .arg(old)?
        .arg(new)?
        .arg(shape)?
        .arg(large)?
        .arg(spread)
}
