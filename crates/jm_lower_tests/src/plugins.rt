use crate::meeting::Meeting;
use crate::pools::pool_of;
use jm_bytes::List;
use jm_pattern::read_list;
use jm_plugins::apply;
use jm_words::Plugin;
use std::test::Fail;

/// A class of no constant.
const SMALLEST: &[u8] = &[
    0xCA, 0xFE, 0xBA, 0xBE, 0, 0, 0, 0x34, 0, 1, 0, 0, 0, 0, 0, 0, 0, 0, 0, 0, 0, 0, 0, 0,
];

#[test]
fn both_pieces_meet(rt: HostRuntime) -> Result<(), Fail> {
    for (shows, plugin) in [
        ("strip", Plugin::Strip),
        ("compact", Plugin::Compact),
        ("exclude", Plugin::Exclude(read_list(rt.alloc(), b"/c/**")?)),
        ("order", Plugin::Order(read_list(rt.alloc(), b"/c/**")?)),
    ] {
        let mut list = List::new(rt.alloc());
        list.push(plugin)?;
        let gate = Meeting::new();
        let pool = pool_of(
            rt.alloc(),
            &[("/a/A.class", SMALLEST), ("/a/B.class", SMALLEST)],
        )?;
        let left = apply(&rt, rt.alloc(), 2, pool, list.as_slice(), &gate)?;
        assert_eq!(rt; left.len(), 2, "{shows}");
        assert!(rt; gate.is_met(), "the pieces met at the gate of {shows}");
    }
    Ok(())
}
