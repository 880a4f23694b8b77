//! Calls in order and their answers, worked out by hand, and that room which is there is found.

use crate::{Key, OpCache};
use mon_base::Numbered;
use std::test::Fail;

/// A number that stands for a handle.
#[derive(Clone, Copy, Debug, PartialEq, Eq)]
struct Number(u32);

impl Numbered for Number {
    ghost number = { λ n. n.0 };

    ghost exact = { λ a b e. λ i. record { 0 = e i } };

    fn number(&self) -> u32 {
        self.0
    }
}

fn key(op: u8, left: u32, right: u32) -> Key<Number> {
    Key {
        op,
        left: Number(left),
        right: Number(right),
    }
}

/// What `store` answers for a key that has no result, and `None` for one that has a result.
fn store(cache: &mut OpCache<Number>, key: Key<Number>, answer: u32) -> Option<bool> {
    match cache.find(key) {
        Some(_) => None,
        None => Some(cache.store(key, Number(answer))),
    }
}

/// The number that is found.
fn find(cache: &OpCache<Number>, key: Key<Number>) -> Option<u32> {
    cache.find(key).map(|number| number.0)
}

#[test]
fn four_entries(rt: HostRuntime) -> Result<(), Fail> {
    let mut cache = OpCache::<Number>::open(rt.alloc(), 4)?;
    for (op, left, right, stored) in [
        (0, 2, 3, Some(true)),
        (0, 3, 2, Some(true)),
        (1, 2, 3, Some(true)),
        (0, 2, 3, None),
        (0, 2, 2, Some(true)),
        (1, 3, 2, Some(false)),
    ] {
        let key = key(op, left, right);
        assert_eq!(rt;
            store(&mut cache, key, 100 + left),
            stored,
            "{op} {left} {right}"
        );
    }
    for (op, left, right, found) in [
        (0, 2, 3, Some(102)),
        (0, 3, 2, Some(103)),
        (1, 2, 3, Some(102)),
        (0, 2, 2, Some(102)),
        (1, 3, 2, None),
        (2, 2, 3, None),
    ] {
        assert_eq!(rt;
            find(&cache, key(op, left, right)),
            found,
            "{op} {left} {right}"
        );
    }
    assert_eq!(rt; (cache.held(), cache.room()), (4, 0));
    cache.begin();
    assert_eq!(rt; find(&cache, key(0, 2, 3)), None);
    assert_eq!(rt; (cache.held(), cache.room()), (0, 4));
    assert_eq!(rt; store(&mut cache, key(0, 2, 3), 7), Some(true));
    assert_eq!(rt; find(&cache, key(0, 2, 3)), Some(7));
    Ok(())
}

#[test]
fn a_thousand_entries_over_and_over(rt: HostRuntime) -> Result<(), Fail> {
    let mut cache = OpCache::<Number>::open(rt.alloc(), 1000)?;
    for round in 0..3u32 {
        cache.begin();
        for number in 0..1000u32 {
            assert_eq!(rt;
                store(&mut cache, key(5, number, round), number / 3),
                Some(true),
                "{number}"
            );
        }
        assert_eq!(rt; store(&mut cache, key(5, 1000, round), 0), Some(false));
        for number in 0..1000u32 {
            assert_eq!(rt;
                find(&cache, key(5, number, round)),
                Some(number / 3),
                "{number}"
            );
            assert_eq!(rt; find(&cache, key(5, number, round + 1)), None, "{number}");
        }
    }
    Ok(())
}
