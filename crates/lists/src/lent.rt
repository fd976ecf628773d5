ghost use Rattle.std.specs.Prelude.{◌≡◌, length, take, if◌then◌else◌};
ghost use Rattle.std.specs.List.{slice_get};
ghost use Rattle.lists.specs.Lent.{items, empty, counted, room, pushed, cleared, push_answer};

/// A lent slice and a count: the list is the first `count` places, and the places after them keep
/// what they held. A count past the slice's end counts as the slice's length. By rule it is these two,
/// for every element type.
#[derive(Drop)]
pub struct Lent<'a, T> {
    places: &'a mut [T],
    count: usize,
}

/// The answer of a list that has no place left.
#[derive(Clone, Copy, PartialEq, Eq)]
pub struct Full;

impl<'a, T: Copy> Lent<'a, T> {
    /// The empty list.
    pub fn new(places: &'a mut [T]) -> Lent<'a, T>
        ensures { result ≡ empty places.entry }
    {
        Lent { places, count: 0 }
    }

    /// The list of the first `count` places, which hold it already.
    pub fn with_count(places: &'a mut [T], count: usize) -> Lent<'a, T>
        ensures { result ≡ counted places.entry count }
    {
        let count = count.min(places.len());
        Lent { places, count }
    }

    pub fn len(&self) -> usize
        ensures { result ≡ length (items self.now) }
    {
        self.as_slice().len()
    }

    /// The element at a place, none past the end.
    pub fn get(&self, i: usize) -> Option<T>
        ensures { result ≡ slice_get (items self.now) i }
    {
        element(self.as_slice(), i)
    }

    /// The elements, in their order.
    pub fn as_slice(&self) -> &[T]
        ensures { result.now ≡ items self.now }
    {
        front(self.places, self.count)
    }

    /// One element more at the end; refused where every place is taken, and nothing is altered then.
    pub fn push(&mut self, x: T) -> Result<(), Full>
        ensures answer { result ≡ push_answer self.old }
        ensures after { self.new ≡ (if room self.old then pushed self.old x else self.old) }
    {
        if self.count < self.places.len() {
            self.places[self.count] = x;
            self.count += 1;
            Ok(())
        } else {
            Err(Full)
        }
    }

    /// The empty list again, over the same places.
    pub fn clear(&mut self)
        ensures { self.new ≡ cleared self.old }
    {
        self.count = 0;
    }

    /// Ends the list, and hands out what it holds.
    pub fn finish(self) -> &'a [T]
        ensures { result.now ≡ items self.entry }
    {
        let Lent { places, count } = self;
        front(places, count)
    }
}

/// The first `count` elements of a slice, or all of them where it has fewer.
pub fn front<T>(places: &[T], count: usize) -> &[T]
    ensures { result.now ≡ take count places.now }
{
    if count < places.len() {
        &places[0..count]
    } else {
        places
    }
}

/// The element of a slice at a place, none past the end: a copy of it, in one word.
pub fn element<T: Copy>(s: &[T], i: usize) -> Option<T>
    ensures { result ≡ slice_get s.now i }
{
    s.get(i).copied()
}
