//! Two passes meet.
ghost use Rattle.std.specs.Prelude.{◌≡◌};
ghost use Rattle.fkv_table.specs.Said as said;

use crate::desks::{get_up, sit_down};
use crate::rule::{Knows, Pass, Table};
use atomic_table::{Join, Split};
use fkv_disk::Device;

/// How two seats of sessions are made one, and how a seat is cut in two.
pub(crate) struct Meeting;

impl<D: Device> Split<Knows<D>> for Meeting {
    ghost use Rattle.fkv_table.specs.Said as said;

    ghost left = { said.left_view (said.plane (said.opening_of D.seen)) };

    ghost right = { said.right_view (said.plane (said.opening_of D.seen)) };
}

impl<D: Device> Join<Knows<D>> for Meeting {
    ghost use Rattle.fkv_table.specs.Said as said;

    ghost both = { said.both_view (said.plane (said.opening_of D.seen)) };

    ghost spent = { said.spent_view (said.plane (said.opening_of D.seen)) };
}

/// Two passes of one table meet: each session then has seen what either had seen. Of the two lists of events the one was a beginning of
/// the other, and both have the longer one. Between the end of its own list and that of the longer one a session has no event. So it is ready
/// for its next call as it was before. It makes four loads of the epoch's word, and waits for nobody.
pub fn join<D: Device>(table: &Table<D>, first: Pass<D>, second: Pass<D>) -> (Pass<D>, Pass<D>)
    requires ready { said.AreTwoReady (said.opening_of D.seen) table.now.table.shared.key table.now.table.shared.table_id first.seat.table_id
        second.seat.table_id first.seat.me second.seat.me }
    ensures met { said.HaveMet (said.opening_of D.seen) first.seat.me second.seat.me result.0.seat.me result.1.seat.me }
    ensures first { said.StaysReady (said.opening_of D.seen) table.now.table.shared.key table.now.table.shared.table_id first.seat.table_id
        result.0.seat.table_id first.seat.me result.0.seat.me }
    ensures second { said.StaysReady (said.opening_of D.seen) table.now.table.shared.key table.now.table.shared.table_id second.seat.table_id
        result.1.seat.table_id second.seat.me result.1.seat.me }
{
    let words = &table.table.shared;
    let Pass { seat: mut one } = first;
    let Pass { seat: mut other } = second;
    get_up(words, &mut other);
    words.join_seat::<Meeting>(&mut one, other);
    let mut back = words.split_seat::<Meeting>(&mut one);
    sit_down(words, &mut back);
    (Pass { seat: one }, Pass { seat: back })
}
