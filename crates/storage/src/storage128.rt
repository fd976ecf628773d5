ghost use Rattle.std.specs.Prelude.{◌≡◌, refl};
ghost use Rattle.lists.specs.Fixed.{pushed, cleared};
ghost use Rattle.storage.specs.Places.{fresh, place_number};
ghost use Rattle.storage.specs.PlacesLemmas.{own_grows, own_pushed};

use crate::storage::Storage;
use lists::fixed::FixedList;
use lists::lent::Full;
use segments::segment::Segment;

/// A storage that has 128 places itself. The places after the segments keep what they held.
#[derive(Clone, Copy)]
pub struct Storage128 {
    list: FixedList<Segment, 128>,
}

impl Storage128 {
    /// The empty storage, with `End(false)` in every place.
    pub fn new() -> Storage128
        ensures { result ≡ fresh }
    {
        Storage128 {
            list: FixedList::new(Segment::End(false)),
        }
    }
}

impl Storage for Storage128 {
    ghost acts = { record {
      held = λ s. s.list.items;
      capacity = λ s. place_number s.list;
      cleared = λ s. record { list = cleared s.list };
      pushed = λ s x. record { list = pushed s.list x };
    } };

    ghost empties = { λ s. refl };

    ghost same_cleared = { λ s. refl };

    ghost grows = { λ s x fits. own_grows s.list x fits };

    ghost same_pushed = { λ s x fits. own_pushed s.list x fits };

    fn clear(&mut self) {
        self.list.clear();
    }

    fn push(&mut self, segment: Segment) -> Result<(), Full> {
        self.list.push(segment)
    }

    fn len(&self) -> usize {
        self.list.len()
    }

    fn get(&self, i: usize) -> Option<Segment> {
        self.list.get(i)
    }
}
