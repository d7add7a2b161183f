//! The words after the program's name.
use clap::error::ErrorKind;
use clap::{Arg, ArgAction, Command};
use std::alloc::{AllocError, Global};

/// The version, the same as in face/fkv.h.
const VERSION: &str = "0.1.0";

/// A look that is asked for.
#[derive(Drop)]
pub(crate) struct Options<'a> {
    /// The file to look at.
    pub(crate) file: &'a str,
    /// `--pairs`: its pairs are listed.
    pub(crate) pairs: bool,
    /// `--spread`: the keys of these pairs are shown as the library's users know them.
    pub(crate) spread: bool,
    /// `--json`: one value of JSON is written, in place of lines.
    pub(crate) json: bool,
    /// `--picture PATH`: a picture is written into this new file too.
    pub(crate) picture: Option<&'a str>,
}

/// What the words ask for.
#[derive(Drop)]
pub(crate) enum Asked<'a> {
    /// A look at a store.
    Look(Options<'a>),
    /// `--help` or `--version`: this text.
    Text(String),
    /// They are refused.
    Nothing,
}

/// Reads the words after the program's name.
pub(crate) fn options_of<'a>(alloc: Global, words: &'a [&'a str]) -> Result<Asked<'a>, AllocError> {
    match parse(alloc, words) {
        Ok(Some(options)) => Ok(Asked::Look(options)),
        Ok(None) => Ok(Asked::Nothing),
        Err(error) => match error.kind() {
            ErrorKind::OutOfMemory => Err(AllocError),
            ErrorKind::DisplayHelp | ErrorKind::DisplayVersion => {
                Ok(Asked::Text(format!(in alloc; "{error}")?))
            }
            _ => Ok(Asked::Nothing),
        },
    }
}

fn parse<'a>(alloc: Global, words: &'a [&'a str]) -> Result<Option<Options<'a>>, clap::Error> {
    let matches = command_of(alloc)?.try_get_matches_from(words)?;
    let Some(file) = matches.get_str("file") else {
        return Ok(None);
    };
    let spread = matches.get_one::<bool>("spread").unwrap_or(false);
    Ok(Some(Options {
        file,
        pairs: spread || matches.get_one::<bool>("pairs").unwrap_or(false),
        spread,
        json: matches.get_one::<bool>("json").unwrap_or(false),
        picture: matches.get_str("picture"),
    }))
}

fn command_of<'a>(alloc: Global) -> Result<Command<'a>, AllocError> {
    let file = Arg::new(alloc, "file")
        .value_name("FILE")
        .help("The store's file; it is opened for reading alone")
        .required(true);
    let pairs = flag(alloc, "pairs", "Lists the pairs, by ascending keys");
    let spread = flag(
        alloc,
        "spread",
        "Lists the pairs with keys as the library's users know them",
    );
    let json = flag(alloc, "json", "Writes one JSON object instead of lines");
    let picture = Arg::new(alloc, "picture")
        .long("picture")
        .value_name("NEW")
        .help("Draws a whole store into this new file, as an SVG");
    Command::new(alloc, "fkv_look")
        .no_binary_name(true)
        .version(VERSION)
        .about("Shows what the file of a store holds")
        .arg(file)?
        .arg(pairs)?
        .arg(spread)?
        .arg(json)?
        .arg(picture)
}

/// An option that takes no value.
fn flag<'a>(alloc: Global, name: &'a str, help: &'a str) -> Arg<'a> {
    Arg::new(alloc, name)
        .long(name)
        .help(help)
        .action(ArgAction::SetTrue)
}
