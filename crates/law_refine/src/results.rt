//! What takes effect in a call, and that its result is given by its end, in every life of a store that was opened.
ghost use Rattle.law_refine.specs.Results.Laws as results;

/// In every life of a store that was opened, whatever its calls, commits, turns and the order of its steps: while a session that had no call in hand begins
/// one of an operation and moves alone, nothing takes effect, or the operation does, once, as an update of the session under its next serial. Where the
/// call has been answered by then, the update has taken effect just where it is told as done, and with the reply that is told; and what a read is
/// told is told to a read. Once a session has no call in hand, each of its updates that has taken effect has had its result given; and once no session
/// has one, each update that has.
pub fn law_world_results()
    ensures effects_in_call { results.CallsTakeOneEffect }
    ensures result_told { results.ResultsAreOfTheEffect }
    ensures all_given { results.ResultsAreGivenAtRest }
    ensures given_at_rest { results.AllResultsAreGivenAtRest }
{}
