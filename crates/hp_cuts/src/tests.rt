// Owners and ranges, worked out by hand.

use crate::cuts::{Span, overlap, owner, start, target};
use std::test::*;

#[test]
fn owners_of_ten(rt: HostRuntime) {
    for (place, rank) in [0, 0, 0, 1, 1, 1, 2, 2, 3, 3].iter().enumerate() {
        assert!(rt; owner(place as u64, 10, 4) == *rank);
    }
}

#[test]
fn shared_places(rt: HostRuntime) {
    let one = Span { from: 2, until: 7 };
    let shared = overlap(one, Span { from: 5, until: 9 });
    assert!(rt; shared == Span { from: 5, until: 7 });
    let none = overlap(one, Span { from: 8, until: 9 });
    assert!(rt; none.from == none.until);
    assert!(rt; start(4, 10, 4) == 10);
    assert!(rt; target(-1, 4) == 2);
}
