//! How much of a capacity is used, as a bar.
ghost use Rattle.std.specs.Prelude.{Some};
ghost use Rattle.fkv_picture.specs.Gauges.{gauge_words, gauge_text, gauges_text};

use crate::bars::{Bar, Size};
use crate::shares::share;
use fkv_looking::{Capacity, Uses};
use std::fmt;

/// A capacity by its name, drawn from this place on.
#[derive(Clone, Copy)]
struct Gauge {
    name: &'static str,
    x: u64,
    capacity: Capacity,
}

/// What stands above the bar of a capacity.
#[derive(Clone, Copy)]
struct GaugeWords(Gauge);

impl fmt::Display for GaugeWords {
    ghost output = { λ words. Some (gauge_words words.0.name.now words.0.x words.0.capacity) };

    #[tactic(auto, unfolding(crate::specs::Gauges::gauge_words))]
    fn fmt<W: fmt::Write>(&self, f: &mut fmt::Formatter<W>) -> fmt::Result {
        let (name, x) = (self.0.name, self.0.x);
        let Capacity { used, most } = self.0.capacity;
        write!(f, "<text x='{x}' y='84'>{name} {used} of {most}</text>")
    }
}

impl fmt::Display for Gauge {
    ghost output = { λ gauge. Some (gauge_text gauge.name.now gauge.x gauge.capacity) };

    #[tactic(auto, unfolding(crate::specs::Gauges::gauge_text))]
    fn fmt<W: fmt::Write>(&self, f: &mut fmt::Formatter<W>) -> fmt::Result {
        let width = share(self.capacity.used, self.capacity.most, 250);
        let x = self.x;
        let whole = Bar {
            ink: "free",
            x,
            y: 92,
            size: Size {
                width: 250,
                height: 10,
            },
        };
        let used = Bar {
            ink: "used",
            x,
            y: 92,
            size: Size { width, height: 10 },
        };
        writeln!(f, "{}{whole}{used}", GaugeWords(*self))
    }
}

/// All four capacities of a store, side by side.
#[derive(Clone, Copy)]
pub(crate) struct Gauges(pub(crate) Uses);

impl fmt::Display for Gauges {
    ghost output = { λ gauges. Some (gauges_text gauges.0) };

    #[tactic(auto, unfolding(crate::specs::Gauges::gauges_text))]
    fn fmt<W: fmt::Write>(&self, f: &mut fmt::Formatter<W>) -> fmt::Result {
        let entries = Gauge {
            name: "entries",
            x: 40,
            capacity: self.0.entries,
        };
        let records = Gauge {
            name: "records",
            x: 330,
            capacity: self.0.records,
        };
        let commits = Gauge {
            name: "commits",
            x: 620,
            capacity: self.0.commits,
        };
        let sessions = Gauge {
            name: "sessions",
            x: 910,
            capacity: self.0.sessions,
        };
        write!(f, "{entries}{records}{commits}{sessions}")
    }
}
