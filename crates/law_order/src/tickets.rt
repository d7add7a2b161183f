//! That no two requests of a session that wait have one name, in every life of fewer than 2^64 - 1 calls.
ghost use Rattle.law_order.specs.Tickets.Laws.{KeepsTicketsApart};

/// Tickets are given one after another, and come again when all have been given. Each read that has to wait takes one, at the end of its call. So in a life
/// in which fewer than 2^64 - 1 calls of sessions begin no ticket comes again, and at each moment no two requests of a session that wait have one name.
pub fn law_tickets_apart()
    ensures { KeepsTicketsApart }
{}
