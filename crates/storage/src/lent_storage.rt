ghost use Rattle.std.specs.Prelude.{◌≡◌};
ghost use Rattle.lists.specs.Lent.{items, cleared, pushed};
ghost use Rattle.storage.specs.Places.{place_count};
ghost use Rattle.storage.specs.PlacesLemmas.{front_grows};
ghost use Rattle.std.proofs.Common.{refl, length-set};

use crate::storage::Storage;
use lists::lent::{Full, Lent};
use segments::segment::Segment;

/// A storage in places that the caller lends, which is the lent list itself. The places after the
/// segments keep what they held.
pub type LentStorage<'a> = Lent<'a, Segment>;

impl<'a> Storage for Lent<'a, Segment> {
    ghost acts = { record {
      held = items;
      capacity = place_count;
      cleared = cleared;
      pushed = pushed;
    } };

    ghost empties = { λ s. refl };

    ghost same_cleared = { λ s. refl };

    ghost grows = { λ s x fits. front_grows s.places.now s.count x fits };

    ghost same_pushed = { λ s x fits. length-set s.places.now s.count x };

    fn clear(&mut self) {
        Lent::clear(self);
    }

    fn push(&mut self, segment: Segment) -> Result<(), Full> {
        Lent::push(self, segment)
    }

    fn len(&self) -> usize {
        Lent::len(self)
    }

    fn get(&self, i: usize) -> Option<Segment> {
        Lent::get(self, i)
    }
}
