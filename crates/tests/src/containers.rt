use lists::lent::Lent;

// A count past the end counts as the slice's length.
#[test]
fn start_counts(rt: HostRuntime) {
    let mut places = [1, 2, 3];
    assert_eq!(rt; Lent::with_count(&mut places, 2).len(), 2);
    assert_eq!(rt; Lent::with_count(&mut places, 2).get(2), None);
    assert_eq!(rt; Lent::with_count(&mut places, 9).finish().len(), 3);
    assert_eq!(rt; Lent::new(&mut places).get(0), None);
}

// A push writes the first free place and no other, and a list that was cleared starts again.
#[test]
fn pushes(rt: HostRuntime) {
    let mut places = [1, 2, 3];
    let mut list = Lent::with_count(&mut places, 1);
    assert!(rt; list.push(8).is_ok());
    assert_eq!(rt; list.finish().len(), 2);
    assert_eq!(rt; places, [1, 8, 3]);
    let mut list = Lent::with_count(&mut places, 3);
    assert!(rt; list.push(9).is_err());
    assert_eq!(rt; list.get(2), Some(3));
    list.clear();
    assert!(rt; list.push(9).is_ok());
    assert_eq!(rt; list.len(), 1);
    assert_eq!(rt; list.as_slice().len(), 1);
    assert_eq!(rt; places, [9, 8, 3]);
}
