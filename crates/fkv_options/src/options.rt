//! The words after the program's name.
ghost use Rattle.std.specs.Prelude.{◌≡◌, IfOk, option_map, string_bytes};
ghost use Rattle.clap.specs.Simple.{app_of};
ghost use Rattle.clap.specs.Walk.{texts};
ghost use Rattle.fkv_options.specs.CommandLine.{command_line};
ghost use Rattle.fkv_options.specs.Options.{Parses, TellsMatches};

use crate::endings::RunFault;
use clap::error::ErrorKind;
use clap::{Arg, ArgAction, Command, value_parser};
use std::alloc::{AllocError, Global};

/// What the words after the program's name ask for.
#[derive(Debug, Default, PartialEq, Eq, Drop)]
pub struct Options {
    /// `--seed N`: the number that picks whose step is next, where actors are interleaved.
    pub seed: Option<u64>,
    /// `--check`: each crash report is followed by a check.
    pub check: bool,
    /// `--torn B`: what a crash leaves in each byte that was written since the last successful sync. 0 unless it is
    /// given.
    pub torn: u8,
    /// `--file PATH`: the file that is the device.
    pub file: Option<String>,
}

/// Reads the words after the program's name: `--seed N`, where N is a number below 2^64; `--check`; `--torn B`, where
/// B is 0 to 255; `--file PATH`. Words that are refused give status 2 and the line `options`; status 4 where memory was
/// refused.
pub fn options_of(alloc: Global, words: &[&str]) -> Result<Options, RunFault>
    ensures { TellsMatches (texts words.now) result }
{
    match parse(alloc, words) {
        Ok(options) => Ok(options),
        Err(error) => match error.kind() {
            ErrorKind::OutOfMemory => Err(RunFault::want(alloc)),
            _ => Err(RunFault::of_line(alloc, "options")),
        },
    }
}

/// The same, with what the parse of the command line says of words that are refused.
fn parse(alloc: Global, words: &[&str]) -> Result<Options, clap::Error>
    ensures { Parses (texts words.now) result }
{
    let command = command_of(alloc)?;
    let matches = command.try_get_matches_from(words)?;
    Ok(Options {
        seed: matches.get_one::<u64>("seed"),
        check: matches.get_one::<bool>("check").unwrap_or(false),
        torn: matches.get_one::<u8>("torn").unwrap_or(0),
        file: owned(alloc, matches.get_str("file"))?,
    })
}

/// The command line.
pub(crate) fn command_of<'a>(alloc: Global) -> Result<Command<'a>, AllocError>
    ensures { IfOk result (λ command. app_of command ≡ command_line) }
{
    let seed = Arg::new(alloc, "seed")
        .long("seed")
        .value_parser(value_parser!(u64));
    let check = Arg::new(alloc, "check")
        .long("check")
        .action(ArgAction::SetTrue);
    let torn = Arg::new(alloc, "torn")
        .long("torn")
        .value_parser(value_parser!(u8));
    let file = Arg::new(alloc, "file").long("file");
    Command::new(alloc, "fkv")
        .no_binary_name(true)
        .disable_help_flag(true)
        .arg(seed)?
        .arg(check)?
        .arg(torn)?
        .arg(file)
}

/// The text in memory of its own, where there is one.
pub(crate) fn owned(alloc: Global, text: Option<&str>) -> Result<Option<String>, AllocError>
    ensures { IfOk result (λ copy. option_map string_bytes copy ≡ option_map (λ t. t.now) text.entry) }
{
    match text {
        Some(text) => Ok(Some(String::from_str(alloc, text)?)),
        None => Ok(None),
    }
}
