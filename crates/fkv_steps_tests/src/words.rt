//! What each machine is moved over.
use fkv_base::Fault;
use fkv_plane::{Ask, PlainWords};
use std::alloc::Global;

/// So many words, which are as usual but for these.
pub fn new_words(
    alloc: Global,
    count: usize,
    usual: &[(usize, u64)],
    words: &[(usize, u64)],
) -> Result<PlainWords, Fault> {
    let mut plane = PlainWords::new(alloc, count)?;
    store(&mut plane, usual);
    store(&mut plane, words);
    Ok(plane)
}

/// Sets the words at these places.
pub fn store(plane: &mut PlainWords, words: &[(usize, u64)]) {
    for (place, word) in words {
        plane.perform::<()>(&Ask::Store(*place, *word));
    }
}

/// Makes an ask, and gives the reply to it.
pub fn make<A: Drop>(plane: &mut PlainWords, ask: Ask<A>) -> u64 {
    match ask {
        Ask::Put(slot, action) => {
            let _ = plane.put(slot, action);
            0
        }
        other => plane.perform(&other),
    }
}
