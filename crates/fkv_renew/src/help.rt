//! What the program says of itself.

/// `--version`: the same number as in face/fkv.h.
const VERSION: &str = "fkv_renew 0.1.0\n";

/// `--help`.
const HELP: &str = "\
Copies the pairs and the points of a store into a fresh one, which takes commits again

Usage: fkv_renew OLD NEW [--shape K P F M S O D | --large K P F M S O D] [--spread]

Arguments:
  OLD  The file of the store that is renewed; it stays as it is
  NEW  The new store's file; a file that is there is refused

Options:
      --shape K P F M S O D  The sizes of the new store, a specified one
      --large K P F M S O D  The sizes of the new store, a living one
      --spread               Spreads the keys, as the library does
  -h, --help                 Print help
  -V, --version              Print version
";

/// The text that the words ask for in place of a renewal: one word alone, `--help` or `--version` or its letter.
pub(crate) fn text_asked_for(words: &[&str]) -> Option<&'static str> {
    let [word] = words else {
        return None;
    };
    match *word {
        "-h" | "--help" => Some(HELP),
        "-V" | "--version" => Some(VERSION),
        _ => None,
    }
}
