use crate::list::ListMemory;
use crate::memory::Memory;
use crate::none::NoMemory;
use crate::slot::SlotMemory;
use crate::slots::slot_of;
use std::process::Abort;

// A memory that keeps its newest pair recalls it, and no more than it.
fn recalls_the_newest<M: Memory>(rt: &impl Abort, memory: &mut M) {
    memory.empty();
    memory.keep(0, 3);
    assert!(rt; memory.recall(0, 3));
    assert!(rt; memory.recall(0, 2));
    assert!(rt; !memory.recall(0, 4));
    assert!(rt; !memory.recall(1, 3));
    memory.empty();
    assert!(rt; !memory.recall(0, 0));
}

#[test]
fn a_list_recalls_what_it_kept(rt: HostRuntime) {
    let mut memory = ListMemory::new();
    recalls_the_newest(&rt, &mut memory);
}

#[test]
fn slots_recall_what_they_kept(rt: HostRuntime) {
    let mut memory = SlotMemory::new();
    recalls_the_newest(&rt, &mut memory);
}

#[test]
fn a_list_raises_and_does_not_lower(rt: HostRuntime) {
    let mut memory = ListMemory::new();
    memory.keep(7, 2);
    memory.keep(7, 5);
    memory.keep(7, 1);
    assert!(rt; memory.recall(7, 5));
    assert!(rt; !memory.recall(7, 6));
    assert_eq!(rt; memory.rows().len(), 1);
}

#[test]
fn a_full_list_takes_no_new_state(rt: HostRuntime) {
    let mut memory = ListMemory::new();
    for state in 0..256u64 {
        memory.keep(state, 1);
    }
    memory.keep(256, 9);
    assert!(rt; !memory.recall(256, 0));
    memory.keep(255, 9);
    assert!(rt; memory.recall(255, 9));
    assert_eq!(rt; memory.rows().len(), 256);
}

#[test]
fn two_states_share_a_slot(rt: HostRuntime) {
    let mut memory = SlotMemory::new();
    assert_eq!(rt; slot_of(0x0101), slot_of(0));
    assert_eq!(rt; slot_of(0xff00_0000_0000_0001), 0xfe);
    memory.keep(0, 3);
    memory.keep(0x0101, 2);
    assert!(rt; !memory.recall(0, 0));
    assert!(rt; memory.recall(0x0101, 2));
}

#[test]
fn no_memory_recalls_nothing(rt: HostRuntime) {
    let mut memory = NoMemory;
    memory.keep(0, 3);
    assert!(rt; !memory.recall(0, 0));
}
