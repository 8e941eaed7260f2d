//! The send end over a list, which hands back what finds no place.
use crate::same::same;
use channel_ring::{ItemSend, ListSend, SendEnd};
use xcp_base::{Item, StopMark};

#[test]
fn a_full_list_hands_the_item_back(rt: HostRuntime) {
    let mut end = ListSend::new(rt.alloc(), 1).expect(&rt, "a list");
    let before = (end.capacity(), end.room());
    let taken = end.offer(Item::Marker(StopMark::new(0, 3))).is_ok();
    let back = end.offer(Item::Marker(StopMark::new(0, 4))).is_err();
    let shown = (before, taken, back, end.room(), end.items().len());
    let row = "a list of one place";
    same(&rt, shown, ((1, 1), true, true, 0, 1), row, "what it shows");
    let items = end.finish().expect(&rt, "a finished list");
    same(&rt, items.len(), 1, row, "items of a finished end");
}
