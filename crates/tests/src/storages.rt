use curves::line::Line;
use lists::lent::Full;
use path::geometry::Point;
use segments::mark::SegmentId;
use segments::segment::Segment;
use storage::lent_storage::LentStorage;
use storage::storage::Storage;
use storage::storage128::Storage128;

fn line(x: u8) -> Segment {
    let x = f32::from(x);
    Segment::Line(
        SegmentId::first(),
        Line::new(Point::new(x, 0.0), Point::new(x, 1.0)),
    )
}

// Whether all lines from 0 on fit, so many of them.
fn fits<S: Storage>(storage: &mut S, lines: u8) -> bool {
    (0..lines).all(|x| storage.push(line(x)).is_ok())
}

// Whether just these lines are held.
fn holds<S: Storage>(storage: &S, lines: u8) -> bool {
    (0..lines).all(|x| storage.get(usize::from(x)) == Some(line(x)))
        && storage.len() == usize::from(lines)
        && storage.get(usize::from(lines)).is_none()
}

// The 129th segment is refused, and the 128 stay.
#[test]
fn holds_128(rt: HostRuntime) {
    let mut storage = Storage128::new();
    assert!(rt; holds(&storage, 0));
    assert!(rt; fits(&mut storage, 128));
    assert!(rt; storage.push(Segment::End(true)) == Err(Full));
    assert!(rt; holds(&storage, 128));
}

// Cleared, it has its 128 places again.
#[test]
fn clears_128(rt: HostRuntime) {
    let mut storage = Storage128::new();
    assert!(rt; fits(&mut storage, 128));
    storage.clear();
    assert!(rt; holds(&storage, 0));
    assert!(rt; fits(&mut storage, 128));
    assert!(rt; storage.push(Segment::End(true)) == Err(Full));
}

// It refuses where the lent slice is full; the place after the slice is as it was.
#[test]
fn lent_is_full(rt: HostRuntime) {
    let mut places = [Segment::End(true); 3];
    let (front, _) = places.split_at_mut(2);
    let mut storage = LentStorage::new(front);
    assert!(rt; fits(&mut storage, 2));
    assert!(rt; storage.push(Segment::End(false)) == Err(Full));
    assert!(rt; holds(&storage, 2));
    assert!(rt; places.get(1).copied() == Some(line(1)));
    assert!(rt; places.get(2).copied() == Some(Segment::End(true)));
}

// Cleared, it has all its places again; those past the count keep what they held.
#[test]
fn lent_is_cleared(rt: HostRuntime) {
    let mut places = [Segment::End(true); 3];
    let mut storage = LentStorage::new(&mut places);
    assert!(rt; fits(&mut storage, 2));
    storage.clear();
    assert!(rt; holds(&storage, 0));
    assert!(rt; storage.push(Segment::End(false)) == Ok(()));
    assert_eq!(rt; storage.len(), 1);
    assert!(rt; places == [Segment::End(false), line(1), Segment::End(true)]);
    assert!(rt; fits(&mut LentStorage::new(&mut places), 3));
}

#[test]
fn lent_nothing(rt: HostRuntime) {
    let mut storage = LentStorage::new(&mut []);
    assert!(rt; storage.push(Segment::End(true)) == Err(Full));
    assert!(rt; holds(&storage, 0));
}
