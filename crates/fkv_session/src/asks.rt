//! What a session asks, read without being taken.
ghost use Rattle.std.specs.Prelude.{◌≡◌};
ghost use Rattle.fkv_session.specs.Sessions.{is_word_ask};

use crate::answers::Told;
use fkv_plane::{Action, Ask};

/// Whether it is an ask of a word. What goes with one, and the end of a call, are none, and are not counted.
pub fn is_word_ask(ask: &Ask<Told>) -> bool
    ensures { result ≡ is_word_ask ask.now }
{
    !matches!(ask, Ask::Put(_, _) | Ask::Take(_) | Ask::Done(_))
}

/// The ask once more.
pub(crate) fn same_ask(ask: &Ask<Told>) -> Ask<Told>
    ensures { result ≡ ask.now }
{
    match ask {
        Ask::Load(place) => Ask::Load(*place),
        Ask::Store(place, new) => Ask::Store(*place, *new),
        Ask::Swap(place, new) => Ask::Swap(*place, *new),
        Ask::Cas(place, old, new) => Ask::Cas(*place, *old, *new),
        Ask::Add(place, number) => Ask::Add(*place, *number),
        Ask::Max(place, number) => Ask::Max(*place, *number),
        Ask::Put(slot, action) => Ask::Put(*slot, same_action(action)),
        Ask::Take(slot) => Ask::Take(*slot),
        Ask::Done(told) => Ask::Done(*told),
    }
}

fn same_action(action: &Action) -> Action
    ensures { result ≡ action.now }
{
    match action {
        Action::SafeReadOnly(to) => Action::SafeReadOnly(*to),
        Action::Close(to) => Action::Close(*to),
        Action::Phase(phase, version) => Action::Phase(*phase, *version),
    }
}
