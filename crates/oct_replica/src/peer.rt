//! A replica as whom a session speaks for.

use crate::replica::Replica;
use oct_join::Clock;
use oct_ops::{Op, OpList};
use oct_record::taking::take_ops;
use oct_sync::Peer;
use std::alloc::{AllocError, Allocator};

impl<A: Allocator + Copy> Peer<A> for Replica<A> {
    ghost held = { λ replica. replica.ops };

    ghost author = { λ replica. replica.author };

    fn clock(&self) -> Result<Clock<A>, AllocError> {
        Replica::clock(self)
    }

    fn beyond(&self, clock: &Clock<A>) -> Result<OpList<A>, AllocError> {
        Replica::beyond(self, clock)
    }

    fn take_ops(&mut self, ops: &mut Vec<Op<A>, A>) -> Result<(), AllocError> {
        take_ops(self, ops)
    }
}
