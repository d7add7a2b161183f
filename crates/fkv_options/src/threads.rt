//! Whether the words after the program's name ask for threads.
ghost use Rattle.std.specs.Prelude.{◌≡◌, true, false, is_some, None, IfOk};
ghost use Rattle.clap.specs.Simple.{app_of};
ghost use Rattle.clap.specs.Walk.{texts};
ghost use Rattle.fkv_options.specs.Threads.{IsAsked, IsAskedOrRefused, threads_line};
ghost use Rattle.fkv_options.specs.declared.threads.Asked.TheVariants.{NoThreads, SeedAndThreads, Threads};

use crate::options::{command_of, owned};
use clap::error::ErrorKind;
use clap::{Arg, ArgAction, Command};
use std::alloc::{AllocError, Global};

/// What the words after the program's name ask for.
#[derive(Drop)]
pub enum Asked {
    /// No threads. Words that are refused ask for none.
    NoThreads,
    /// Threads, and a seed that picks who is next.
    SeedAndThreads,
    /// Threads, over a store in the file of this path, or in memory.
    Threads(Option<String>),
}

/// What the words ask for: those that `options_of` takes, and the flag `--threads`.
pub fn asked_of(alloc: Global, words: &[&str]) -> Result<Asked, AllocError>
    ensures { IfOk result (IsAsked (texts words.now)) }
{
    match parse(alloc, words) {
        Ok(asked) => Ok(asked),
        Err(error) => match error.kind() {
            ErrorKind::OutOfMemory => Err(AllocError),
            _ => Ok(Asked::NoThreads),
        },
    }
}

/// The same, with what the parse of the command line says of words that are refused.
fn parse(alloc: Global, words: &[&str]) -> Result<Asked, clap::Error>
    ensures { IsAskedOrRefused (texts words.now) result }
{
    let command = threads_command_of(alloc)?;
    let matches = command.try_get_matches_from(words)?;
    let threads = matches.get_one::<bool>("threads").unwrap_or(false);
    let seed = matches.get_one::<u64>("seed");
    let file = owned(alloc, matches.get_str("file"))?;
    Ok(asked_by(threads, seed, file))
}

/// What is asked for by these values of the options.
fn asked_by(threads: bool, seed: Option<u64>, file: Option<String>) -> Asked
    ensures none { threads ≡ false → result ≡ NoThreads }
    ensures seed { threads ≡ true → is_some seed ≡ true → result ≡ SeedAndThreads }
    ensures threads { threads ≡ true → seed ≡ None → result ≡ Threads file }
{
    match (threads, seed) {
        (false, _) => Asked::NoThreads,
        (true, Some(_)) => Asked::SeedAndThreads,
        (true, None) => Asked::Threads(file),
    }
}

/// The command line with `--threads`.
fn threads_command_of<'a>(alloc: Global) -> Result<Command<'a>, AllocError>
    ensures { IfOk result (λ command. app_of command ≡ threads_line) }
{
    let threads = Arg::new(alloc, "threads")
        .long("threads")
        .action(ArgAction::SetTrue);
    command_of(alloc)?.arg(threads)
}
