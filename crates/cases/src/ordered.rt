use crate::worked::{accept, name};
use sets::member::contains;
use sets::sorted::{find, make_set};

#[test]
fn repeats_count_once(rt: HostRuntime) {
    let mut names = [name(2, 5), name(1, 9), name(2, 5), name(1, 7), name(1, 9)];
    assert_eq!(rt; make_set(&mut names), 3);
    assert_eq!(rt; names[0], name(1, 7));
    assert_eq!(rt; names[1], name(1, 9));
    assert_eq!(rt; names[2], name(2, 5));
}

#[test]
fn every_field_counts(rt: HostRuntime) {
    let blocks = [accept(1, 0, 9), accept(0, 4, 4)];
    assert!(rt; contains(&blocks, accept(0, 4, 4)));
    assert!(rt; !contains(&blocks, accept(1, 0, 4)));
}

#[test]
fn a_set_is_searched(rt: HostRuntime) {
    let names = [name(1, 7), name(1, 9), name(2, 5)];
    assert_eq!(rt; find(&names, name(1, 9)), Some(1));
    assert_eq!(rt; find(&names, name(2, 4)), None);
}
