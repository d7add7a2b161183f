//! Lines of four sessions and the keeper.
use crate::draws::Draws;
use fkv_base::{CommitKind, Fault, Key, Value};
use fkv_lines::Line;
use fkv_map::{Call, Merge, Op};
use std::alloc::Global;

pub(crate) const SESSIONS: u64 = 4;

/// Lines of one life, which are drawn: calls of sessions, and commits of both kinds, each with its finish.
pub(crate) fn lines_of(alloc: Global, draws: &mut Draws) -> Result<Vec<Line>, Fault> {
    let mut lines = Vec::new(alloc);
    let count = draws.below(400).saturating_add(40);
    for _ in 0..count {
        if draws.below(60) == 0 {
            let kind = if draws.below(2) == 0 {
                CommitKind::Full
            } else {
                CommitKind::Log
            };
            lines.push(Line::Commit(kind))?;
            lines.push(Line::Finish)?;
        } else {
            let session = draws.below(SESSIONS);
            lines.push(Line::Call(session, call_of(draws, session)))?;
        }
    }
    Ok(lines)
}

fn merge_of(draws: &mut Draws) -> Merge {
    match draws.below(6) {
        0 => Merge::Keep,
        1 => Merge::Min,
        2 => Merge::Sub,
        3 => Merge::And,
        4 => Merge::Or,
        _ => Merge::First,
    }
}

fn call_of(draws: &mut Draws, session: u64) -> Call {
    match draws.below(20) {
        0 => Call::Refresh,
        1 => Call::Poll,
        2 => Call::Durable,
        _ => Call::Op(op_of(draws, session)),
    }
}

/// An operation on a key of the session's own; or a sum that is added to one that all share.
fn op_of(draws: &mut Draws, session: u64) -> Op {
    let own = Key(
        draws
            .below(12)
            .saturating_mul(SESSIONS)
            .saturating_add(session),
    );
    match draws.below(9) {
        0 => Op::Read(own),
        1 => Op::Delete(own),
        2 => Op::Upsert(own, Value(draws.below(1000))),
        3 => Op::Max(own, draws.below(1000)),
        4 => Op::Add(own, draws.below(1000)),
        5 | 6 => Op::Merge(own, merge_of(draws), draws.below(1000)),
        _ => Op::Add(Key(draws.below(4).saturating_add(1000)), draws.below(1000)),
    }
}
