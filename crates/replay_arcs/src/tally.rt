use crate::compared::{Compared, Count};
use std::fmt;
use std::num::saturating_f64_to_u64;

/// What came of some arcs.
#[derive(Clone, Copy, Default)]
pub(crate) struct Tally {
    arcs: u64,
    as_many: u64,
    more: u64,
    too_few: u64,
    not_finite: u64,
    unknown: u64,
    at_end: Worst,
    on_way: Worst,
    past_512th: u64,
}

// The largest of some numbers, and the arc that it is of.
#[derive(Clone, Copy, Default)]
struct Worst {
    off: f64,
    number: u64,
}

impl Worst {
    fn count(&mut self, number: u64, off: f64) {
        if off > self.off || off != off {
            self.off = off;
            self.number = number;
        }
    }
}

impl Tally {
    /// Counts one arc more, of this number.
    pub(crate) fn count(&mut self, number: u64, compared: Compared) {
        self.arcs = self.arcs.saturating_add(1);
        let alike = match compared.count {
            Count::NotFinite => &mut self.not_finite,
            Count::TooFew => &mut self.too_few,
            Count::AsMany => &mut self.as_many,
            Count::More => &mut self.more,
            Count::Unknown => &mut self.unknown,
        };
        *alike = alike.saturating_add(1);
        self.at_end.count(number, compared.at_end);
        self.on_way.count(number, compared.on_way);
        self.past_512th = self
            .past_512th
            .saturating_add(u64::from(compared.on_way * 512.0 > 1.0));
    }
}

impl fmt::Display for Tally {
    fn fmt<W: fmt::Write>(&self, f: &mut fmt::Formatter<W>) -> fmt::Result {
        writeln!(
            f,
            "{} arcs: {} with a curve for each quarter begun, {} with more, {} with fewer, {} whose way does not fit, {} not finite",
            self.arcs, self.as_many, self.more, self.too_few, self.unknown, self.not_finite
        )?;
        writeln!(
            f,
            "  the end off by {} of the chord at arc {}",
            self.at_end, self.at_end.number
        )?;
        write!(
            f,
            "  {} with a curve off by more than 1/512 of the size; worst {} at arc {}",
            self.past_512th, self.on_way, self.on_way.number
        )
    }
}

impl fmt::Display for Worst {
    fn fmt<W: fmt::Write>(&self, f: &mut fmt::Formatter<W>) -> fmt::Result {
        let units = self.off * 1048576.0;
        write!(f, "{}/2^20", saturating_f64_to_u64(units.ceil()))
    }
}
