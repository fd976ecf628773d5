ghost use Rattle.std.specs.Prelude.{◌≡◌, ◌≤◌, length};
ghost use Rattle.std.specs.List.{slice_get};
ghost use Rattle.lists.specs.Fixed.{fresh, filled, pushed, push_answer, cleared};

use crate::lent::{Full, element, front};
use std::marker::Model;

/// A list of at most `N` elements. The places after them keep what they held. It can be copied, where
/// `Lent` hands out what it was lent, so the two stay apart.
#[derive(Clone, Copy)]
pub struct FixedList<T, const N: usize> {
    places: [T; N],
    count: usize,
}

impl<T, const N: usize> Model for FixedList<T, N> {
    ghost use Rattle.std.specs.Prelude.{◌≡◌, ◌≤◌, ◌++◌, length, take, drop};
    ghost use Rattle.std.proofs.Common.{arith, take-append-drop, length-take-le};
    ghost use Rattle.lists.specs.Fixed.{Places, places_code};

    ghost Value = { Places T };

    ghost coded = { places_code T.code };

    ghost view = { λ l. record { items = take l.count l.places; spare = drop l.count l.places } };

    ghost invariant = { λ l. (l.count ≤ N) × (length l.places ≡ N) };

    ghost inverse = { λ v. record { places = v.items ++ v.spare; count = length v.items } };

    ghost inverse_ok = { λ l h i. record {
      places = take-append-drop l.count l.places i;
      count = length-take-le l.count l.places (omega (arith, h.0, h.1)) i;
    } };
}

impl<T: Copy, const N: usize> FixedList<T, N> {
    /// The empty list, with the blank element in every place.
    pub fn new(blank: T) -> Self
        ensures { result ≡ fresh N blank }
    {
        FixedList {
            places: [blank; N],
            count: 0,
        }
    }

    /// The first `N` of some elements, with the blank element in every place after them.
    pub fn filled(blank: T, items: &[T]) -> Self
        ensures { result ≡ filled N blank items.now }
    {
        let count = N.min(items.len());
        let mut places = [blank; N];
        places[..count].copy_from_slice(front(items, count));
        FixedList { places, count }
    }

    /// The elements, in their order.
    pub fn as_slice(&self) -> &[T]
        ensures value { result.now ≡ self.now.items }
        ensures fits { length result.now ≤ N }
    {
        &self.places[..self.count]
    }

    pub fn len(&self) -> usize
        ensures value { result ≡ length self.now.items }
        ensures fits { result ≤ N }
    {
        self.as_slice().len()
    }

    /// The element at a place, none past the end.
    pub fn get(&self, i: usize) -> Option<T>
        ensures { result ≡ slice_get self.now.items i }
    {
        element(self.as_slice(), i)
    }

    /// One element more at the end; refused where every place is taken, and nothing is altered then.
    pub fn push(&mut self, x: T) -> Result<(), Full>
        ensures answer { result ≡ push_answer self.old }
        ensures after { self.new ≡ pushed self.old x }
    {
        if self.count < N {
            self.places[self.count] = x;
            self.count += 1;
            Ok(())
        } else {
            Err(Full)
        }
    }

    /// The empty list again.
    pub fn clear(&mut self)
        ensures { self.new ≡ cleared self.old }
    {
        self.count = 0;
    }
}
