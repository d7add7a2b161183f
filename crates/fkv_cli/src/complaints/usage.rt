//! What the program says of its words where they are refused. Its output and its status are those of a refusal then, of `--help` too.
use std::io::Write;

/// The version is the same as in face/fkv.h.
const USAGE: &str = "\
fkv 0.1.0 plays a script from standard input over one store, and prints the answers, one a line

Usage: fkv [--seed N | --threads] [--check] [--torn B] [--file PATH] < SCRIPT

Options:
  --seed N     Interleaves neighbouring calls step by step; a generator with seed N picks who is next
  --threads    Plays each session's lines on a thread of their own, and the keeper's on another
  --check      Says after each crash's report whether the recovered store equals a replay
  --torn B     A crash sets to B, 0 to 255, each byte that wasn't synced; 0 by default
  --file PATH  Keeps the store in this file; a line that makes a store wipes an older one in it

Lines of a script, the first of which makes or opens the store:
  shape K P F M S O D       Makes a store: 2^K buckets, pages of P records, F of them in memory and M of these mutable,
                            S sessions, O overflow buckets, D pages of the log in all
  large K P F M S O D       The same with sizes beyond those of shape
  open                      Opens the store in the file
  N up K V, N add K V       Session N, from 0, sets key K to V; adds V
  N max K V, N del K        Raises it to V; deletes it
  N get K                   Reads it
  N keep K                  Behind large alone: leaves it as it is, and prints it
  N min K V, N sub K V      Behind large alone: lowers it to V; takes V off, down to 0
  N and K V, N or K V       Behind large alone: keeps the bits that both have; sets those of V
  N first K V               Behind large alone: sets it to V if it has no value
  N refresh, N poll         Sees how far the store has come; tries what is pending once more
  N sleep, N wake           Nobody waits for the session; it comes back
  k commit, k commit log    Begins a commit; one that copies no index
  k commit trim             Behind large alone: a full one, behind which turns go over the log's front
  k turn, k finish          A turn of the keeper; turns up to a commit's end
  crash, crash J, fail J    Crashes and recovers; in the J-th call of the device; that call and all later ones fail

Status: 0; 1 if a check differs; 2 if words, a line or sizes are refused; 3 if a store is; 4 if memory or a stream failed
";

/// Writes it, at once. Where the writer fails it is lost, and nothing else comes of that.
pub fn tell_usage<E: Write>(complaints: &mut E) {
    let _lost = complaints.write_all(USAGE.as_bytes());
    let _failed = complaints.flush();
}
