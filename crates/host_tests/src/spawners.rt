//! Spawners: each worker in a thread of its own, and one after another.

use crate::numbers::Numbers;
use std::collections::VecDeque;
use std::sync::Barrier;
use std::test::Fail;
use zb_links::{CountedSpawner, NoWorkers, Spawner, ThreadSpawner};

#[test]
fn eight_threads_meet(rt: HostRuntime) -> Result<(), Fail> {
    let barrier = Barrier::new(8);
    let numbers = Numbers {
        rt: &rt,
        barrier: &barrier,
        next: 0,
        count: 8,
        back: Vec::new(rt.alloc()),
        waiting: VecDeque::new(rt.alloc()),
        has_ended: false,
    };
    let (numbers, result) = ThreadSpawner::new().run(&rt, rt.alloc(), numbers);
    assert_eq!(rt; result, Ok(()));
    assert_eq!(rt;
        numbers.back.as_slice(),
        [0, 1, 2, 3, 4, 5, 6, 7].as_slice()
    );
    Ok(())
}

#[test]
fn third_start_of_five_fails(rt: HostRuntime) -> Result<(), Fail> {
    let barrier = Barrier::new(1);
    let numbers = Numbers {
        rt: &rt,
        barrier: &barrier,
        next: 0,
        count: 5,
        back: Vec::new(rt.alloc()),
        waiting: VecDeque::new(rt.alloc()),
        has_ended: false,
    };
    let mut spawner = CountedSpawner::new(vec![in rt.alloc(); 3]?);
    let (numbers, result) = spawner.run(&rt, rt.alloc(), numbers);
    assert_eq!(rt; result, Err(NoWorkers));
    assert_eq!(rt; spawner.faults(), 1);
    assert_eq!(rt; numbers.back.as_slice(), [0, 1].as_slice());
    Ok(())
}
