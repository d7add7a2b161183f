//! Laws of the rule, over any world of events. These functions do nothing: what they promise holds of every state that meets the rule.
ghost use Rattle.fkv_seats.specs.Kept.{DesksApart, GetsUpByRule, JoinsByRule, MeetsByRule, OpensByRule, SeesInOrder, SitsByRule, SplitsByRule, StepsByRule};
ghost use Rattle.fkv_seats.specs.Rule.{Plane};

/// The rule holds as a table is made, and each thing that a seat may do keeps it. A step on a word adds an event of whom the seat speaks for, with starts of its
/// own before it, if these may stand in the list. It is told that what others have added may too. The slot in hand goes back by this step, and the one that the
/// event names comes out. A seat is cut in two, two are made one, and one sits down at its desk and gets up from it. Who sits down is told that what his seat has
/// seen goes on from what the other one had seen, if it was made one of two, and that only with events of others than that one. Between the desks of two numbers
/// lie two other slots at least.
pub fn law_seats<W, E, A, K>()
    ensures opens { (plane : Plane W E A K) → OpensByRule plane }
    ensures steps { (plane : Plane W E A K) → StepsByRule plane }
    ensures splits { (plane : Plane W E A K) → SplitsByRule plane }
    ensures joins { (plane : Plane W E A K) → JoinsByRule plane }
    ensures meets { (plane : Plane W E A K) → MeetsByRule plane }
    ensures sits { (plane : Plane W E A K) → SitsByRule plane }
    ensures gets_up { (plane : Plane W E A K) → GetsUpByRule plane }
    ensures desks { (plane : Plane W E A K) → DesksApart plane }
{}

/// Of any two seats of a table in one state that meets the rule, what the one has seen is a beginning of what the other has. So there is one list of events, and a
/// seat that has seen more has seen all that the other has.
pub fn law_seen_in_order<W, E, A, K>()
    ensures { (plane : Plane W E A K) → SeesInOrder plane }
{}
