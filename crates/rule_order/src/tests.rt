//! An order beside a plain list.
ghost use Rattle.std.specs.Prelude.{◌≡◌, IfOk, vec_len};

use crate::Order;
use std::alloc::{AllocError, Global};
use std::test::Fail;

// The indexes of an order, most recent first.
fn listed(alloc: Global, order: &Order) -> Result<Vec<u8>, AllocError>
    ensures { IfOk result (λ v. v.items ≡ order.now) }
{
    let mut indexes = Vec::new(alloc);
    let mut at = order.first();
    while let Some(index) = at {
        indexes.push(index)?;
        at = order.next(index);
    }
    Ok(indexes)
}

#[derive(Clone, Copy)]
enum Step {
    Push,
    Move,
    Remove,
}

// Takes the step where the order allows it, and says whether it does.
fn take_step(alloc: Global, order: &mut Order, step: Step, index: u8) -> Result<bool, AllocError> {
    let indexes = listed(alloc, order)?;
    let known = indexes.as_slice().contains(&index);
    match step {
        Step::Push if !known && index < 128 => order.push_front(index),
        Step::Move if known => order.to_front(index),
        Step::Remove if known => order.remove(index),
        _ => return Ok(false),
    }
    Ok(true)
}

// The same step on a plain list.
fn plain_step(plain: &mut Vec<u8>, step: Step, index: u8) -> Result<(), AllocError> {
    plain.retain(|other| *other != index);
    match step {
        Step::Push | Step::Move => plain.insert(0, index)?,
        Step::Remove => (),
    }
    Ok(())
}

#[test]
fn pushes_moves_and_removes(rt: HostRuntime) -> Result<(), Fail> {
    let mut order = Order::new();
    assert_eq!(rt; order.first(), None);
    assert_eq!(rt; order.last(), None);
    let steps = [
        (Step::Push, 1),
        (Step::Push, 2),
        (Step::Push, 3),
        (Step::Move, 1),
        (Step::Remove, 3),
    ];
    for (step, index) in steps {
        assert!(rt; take_step(rt.alloc(), &mut order, step, index)?);
    }
    assert_eq!(rt; listed(rt.alloc(), &order)?.as_slice(), [1, 2].as_slice());
    assert_eq!(rt; order.first(), Some(1));
    assert_eq!(rt; order.last(), Some(2));
    Ok(())
}

#[test]
fn a_hundred_steps_agree_with_a_plain_list(rt: HostRuntime) -> Result<(), Fail> {
    let mut order = Order::new();
    let mut plain = Vec::new(rt.alloc());
    for turn in 0..100usize {
        let index = (turn * turn % 23 * 5 + 17) as u8;
        let known = plain.as_slice().contains(&index);
        let step = match turn % 3 {
            _ if !known => Step::Push,
            0 => Step::Remove,
            _ => Step::Move,
        };
        assert!(rt; take_step(rt.alloc(), &mut order, step, index)?);
        plain_step(&mut plain, step, index)?;
        assert_eq!(rt; listed(rt.alloc(), &order)?.as_slice(), plain.as_slice());
    }
    Ok(())
}
