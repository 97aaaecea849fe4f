// Promises and jobs in the order of their registrations, with ample memory: no clause says that it doesn't run out.
use esm_base::Memory;
use esm_promise::{Promises, Reaction, ReactionKind, Settled};
use esm_values::{PromiseId, Value};
use std::alloc::Global;

fn of_module(m: u32) -> Reaction {
    Reaction {
        kind: ReactionKind::Await,
        subject: u64::from(m),
    }
}

fn takes(promises: &mut Promises, subject: u64, promise: u64) -> bool {
    match promises.pop() {
        Some((reaction, id)) => {
            reaction.kind == ReactionKind::Await && reaction.subject == subject && id.0 == promise
        }
        None => false,
    }
}

fn is_true(settled: Option<&Settled>) -> bool {
    match settled {
        Some(how) => matches!(how, Settled::Fulfilled(Value::Bool(true))),
        None => false,
    }
}

// Registers reactions before and behind the end of two promises; whether none was a job before.
fn none_is_early(alloc: Global, promises: &mut Promises) -> Result<bool, Memory> {
    let first = promises.make(alloc)?;
    let second = promises.make_with(alloc, of_module(7))?;
    promises.then(first, of_module(1))?;
    promises.then(first, of_module(2))?;
    promises.then(PromiseId(9), of_module(3))?;
    let is_early = promises.pop().is_some();
    promises.settle(second, Settled::Rejected(Value::Undefined));
    promises.settle(first, Settled::Fulfilled(Value::Bool(true)));
    promises.then(first, of_module(4))?;
    Ok(!is_early)
}

// Whether the jobs come in the order of their registrations.
fn jobs_come_in_order(alloc: Global, promises: &mut Promises) -> Result<bool, Memory> {
    Ok(
        none_is_early(alloc, promises)?
            && takes(promises, 7, 1)
            && takes(promises, 1, 0)
            && takes(promises, 2, 0)
            && takes(promises, 4, 0)
            && promises.pop().is_none()
            && is_true(promises.settled(PromiseId(0))),
    )
}

// Whether one promise is fulfilled from the beginning, and the next is pending.
fn one_is_fulfilled(alloc: Global, promises: &mut Promises) -> Result<bool, Memory> {
    let id = promises.make_fulfilled(Value::Bool(true))?;
    let other = promises.make(alloc)?;
    Ok(
        !promises.is_pending(id)
            && is_true(promises.settled(id))
            && promises.is_pending(other)
            && promises.settled(other).is_none(),
    )
}

#[test]
fn jobs_in_order(rt: HostRuntime) -> Result<(), Memory> {
    let alloc = rt.alloc();
    assert!(rt; jobs_come_in_order(alloc, &mut Promises::new(alloc))?);
    assert!(rt; one_is_fulfilled(alloc, &mut Promises::new(alloc))?);
    Ok(())
}
