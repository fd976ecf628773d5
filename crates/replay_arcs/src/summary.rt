use crate::compared::Compared;
use crate::tally::Tally;
use arcs::arc_to::{ArcSize, ArcSweep, ArcTo};
use std::alloc::{AllocError, Global};
use std::collections::BTreeMap;
use std::fmt;

/// The arcs of the kinds from this one on are tried beyond the range in which they should be right.
pub(crate) const BEYOND: u8 = 10;

/// Which of the four arcs between two points an arc is.
#[derive(Clone, Copy, PartialEq, Eq, PartialOrd, Ord)]
pub(crate) struct Flags {
    size: ArcSize,
    sweep: ArcSweep,
}

impl From<ArcTo> for Flags {
    fn from(arc: ArcTo) -> Flags {
        Flags {
            size: arc.size,
            sweep: arc.sweep,
        }
    }
}

impl fmt::Display for Flags {
    fn fmt<W: fmt::Write>(&self, f: &mut fmt::Formatter<W>) -> fmt::Result {
        let size = match self.size {
            ArcSize::Small => "small",
            ArcSize::Large => "large",
        };
        let sweep = match self.sweep {
            ArcSweep::Negative => "negative",
            ArcSweep::Positive => "positive",
        };
        write!(f, "{size} {sweep}")
    }
}

/// What came of the arcs by their kinds, and of those of the kinds below `BEYOND` by their flags.
#[derive(Drop)]
pub(crate) struct Summary {
    arcs: u64,
    pub flags: BTreeMap<Flags, Tally>,
    pub kinds: BTreeMap<u8, Tally>,
}

impl Summary {
    pub(crate) fn new(heap: Global) -> Summary {
        Summary {
            arcs: 0,
            flags: BTreeMap::new(heap),
            kinds: BTreeMap::new(heap),
        }
    }

    pub(crate) fn count(
        &mut self,
        kind: u8,
        arc: ArcTo,
        compared: Compared,
    ) -> Result<(), AllocError> {
        if kind < BEYOND {
            let tally = self.flags.entry(Flags::from(arc))?.or_default();
            tally.count(self.arcs, compared);
        }
        let tally = self.kinds.entry(kind % 32)?.or_default();
        tally.count(self.arcs, compared);
        self.arcs = self.arcs.saturating_add(1);
        Ok(())
    }
}
