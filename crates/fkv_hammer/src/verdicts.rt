//! Whether what is recovered behind a crash is what was told.
use fkv_base::{Addr, Fault, Key, Serial, Value, Version};
use fkv_keeper::Finished;
use fkv_map::{Op, PlainMap};
use fkv_opening::Opened;
use fkv_thread_scripts::Log;
use std::alloc::Global;
use thiserror::Error;

/// What is wrong.
#[derive(Clone, Copy, Debug, PartialEq, Eq, Error)]
pub(crate) enum Wrong {
    #[error("{0}")]
    Refused(Fault),
    #[error("the recovered commit was neither finished last nor begun")]
    Number,
    #[error("the recovered log begins at another address")]
    Begin,
    #[error("the points are not those of the finished commit, or of the one from which the life began")]
    Points,
    #[error("a point is below a durable one that was told")]
    Durable,
    #[error("the pairs are no replay of what the points keep")]
    Pairs,
}

impl From<Fault> for Wrong {
    fn from(fault: Fault) -> Wrong {
        Wrong::Refused(fault)
    }
}

/// What the threads of a life were told.
#[derive(Clone, Copy)]
pub(crate) struct Told<'l> {
    /// The commit from which the life began.
    pub(crate) number: Version,
    /// The address at which its log began.
    pub(crate) begin: Addr,
    pub(crate) begun: Option<Version>,
    pub(crate) finished: &'l Option<Finished>,
    pub(crate) logs: &'l [Log],
    /// The pairs with which it began.
    pub(crate) before: &'l [(Key, Value)],
}

/// Compares what is recovered with what was told.
pub(crate) fn judge(
    alloc: Global,
    told: &Told<'_>,
    opened: &Opened,
    pairs: &[(Key, Value)],
) -> Result<(), Wrong> {
    judge_commit(told, opened)?;
    if opened.begin != told.begin {
        return Err(Wrong::Begin);
    }
    let is_first = opened.number == told.number;
    for (log, point) in told.logs.iter().zip(opened.points.as_slice()) {
        if point.0 < log.durable.0 {
            return Err(Wrong::Durable);
        }
        if is_first && point.0 != log.first {
            return Err(Wrong::Points);
        }
    }
    let wanted = replayed(alloc, told, &opened.points)?.pairs()?;
    if wanted.as_slice() == pairs {
        Ok(())
    } else {
        Err(Wrong::Pairs)
    }
}

/// The recovered commit is the last that was told as finished, with its points, or one that was begun behind it.
fn judge_commit(told: &Told<'_>, opened: &Opened) -> Result<(), Wrong> {
    let last = match told.finished {
        Some(its) if its.number == opened.number => {
            return if its.points.as_slice() == opened.points.as_slice() {
                Ok(())
            } else {
                Err(Wrong::Points)
            };
        }
        Some(its) => its.number,
        None => told.number,
    };
    if opened.number == last || told.begun == Some(opened.number) && last.0 < opened.number.0 {
        Ok(())
    } else {
        Err(Wrong::Number)
    }
}

/// The pairs with which the life began, and behind them what each session was told, up to its point.
fn replayed(alloc: Global, told: &Told<'_>, points: &[Serial]) -> Result<PlainMap, Fault> {
    let mut map = PlainMap::new(alloc);
    for pair in told.before {
        map.apply(Op::Upsert(pair.0, pair.1))?;
    }
    for (log, point) in told.logs.iter().zip(points) {
        for serial in &log.told {
            if serial.0 <= point.0 {
                if let Some(op) = log.update(*serial) {
                    map.apply(op)?;
                }
            }
        }
    }
    Ok(map)
}
