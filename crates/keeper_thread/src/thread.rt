//! The thread of a keeper.

ghost use Rattle.keeper_thread.specs.Working.{IsWithin};

use crate::identity::KeeperIdentity;
use crate::shared_pool::SharedPool;
use crate::work::Work;
use core::thread::Stack;
use std::marker::PhantomData;
use std::sync::Wait;
use std::thread::{Promise, PromisedHandle, Scope, Threads};

/// The bytes of a thread's stack, for whoever has no wish.
pub const STACK_SIZE: usize = 2 * 1024 * 1024;

/// The thread of a keeper hands back what was done, which is within its bounds.
#[derive(Drop)]
pub struct WorksWithinBounds<K: KeeperIdentity> {
    of: PhantomData<K>,
}

impl<K: KeeperIdentity> Promise<Work> for WorksWithinBounds<K> {
    ghost use Rattle.keeper_thread.specs.Working.{IsWithin};

    ghost kept_by = { λ _ work. IsWithin K.most work };
}

/// The thread of a keeper that was started. It has to be joined, after it was told to end.
pub type KeeperThread<K> = PromisedHandle<Work, WorksWithinBounds<K>>;

/// Starts the thread of a pool's keeper, with a stack of so many bytes. None where it can't be started: then the pool is as it was, and
/// each take that finds no block ready moves the pages itself.
pub fn start<'s, 'e, K: KeeperIdentity + Send + Sync, const W: usize, R: Threads + Wait + Sync>(
    scope: &'s Scope<'s, &'e ()>,
    rt: &'e R,
    pool: &'e SharedPool<K, W>,
    stack_size: usize,
) -> Option<KeeperThread<K>> {
    let started = Stack::new().stack_size(stack_size).spawn_scoped_with(
        scope,
        WorksWithinBounds::<K> { of: PhantomData },
        move || -> Work
            ensures { IsWithin K.most result }
        { pool.run(rt) },
    );
    match started {
        Ok(thread) => Some(thread),
        Err(_) => None,
    }
}
