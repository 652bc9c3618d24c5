//! Lists of operations in their order.

ghost use Rattle.std.specs.Prelude.{◌≡◌, ◌↔◌, length, false, IsTrue, IfOk, IfErr, OnOk};
ghost use Rattle.oct_ops.specs.Operations.{IsRising};
ghost use Rattle.oct_ops.specs.Order.{op_cmp};
ghost use Rattle.oct_ops.specs.Sets.{rises};

use crate::error::ListError;
use crate::op::Op;
use crate::rising::rises;
use std::alloc::Allocator;
use std::marker::Model;

/// A strictly rising list of operations: each is below the next in the operation order, so none is there twice.
#[derive(Drop)]
pub struct OpList<A: Allocator> {
    ops: Vec<Op<A>, A>,
}

impl<A: Allocator> Model for OpList<A> {
    ghost use Rattle.std.specs.Prelude.{List};
    ghost use Rattle.oct_ops.specs.Body.{Operation};
    ghost use Rattle.oct_ops.specs.Operations.{IsRising};

    ghost Value = { List Operation };

    ghost view = { λ l. l.ops.items };

    ghost invariant = { λ l. IsRising l.ops.items };
}

impl<A: Allocator> OpList<A> {
    /// The list of these operations. Where some operation is not below the next, the answer is `NotRising`, and the
    /// operations come back.
    pub fn from_rising(ops: Vec<Op<A>, A>) -> Result<OpList<A>, (ListError, Vec<Op<A>, A>)>
        ensures ok { IfOk result (λ list. list ≡ ops.items) }
        ensures accepted { OnOk result (IsRising ops.items) }
        ensures refused { IfErr result (λ refused. rises op_cmp ops.items ≡ false) }
        ensures back { IfErr result (λ refused. refused.1 ≡ ops) }
    {
        if !rises(&ops) {
            return Err((ListError::NotRising, ops));
        }
        Ok(OpList { ops })
    }

    /// The list of operations of which each is below the next. Nothing is compared.
    pub fn of_rising(ops: Vec<Op<A>, A>) -> OpList<A>
        requires { IsRising ops.items }
        ensures { result ≡ ops.items }
    {
        OpList { ops }
    }

    /// The operations in their order.
    pub fn as_slice(&self) -> &[Op<A>]
        ensures value { result.now ≡ self.now }
        ensures valid { IsRising self.now }
    {
        &self.ops
    }

    /// How many operations there are.
    pub fn len(&self) -> usize
        ensures { result ≡ length self.now }
    {
        self.ops.len()
    }

    /// Whether there is no operation.
    pub fn is_empty(&self) -> bool
        ensures { IsTrue result ↔ (length self.now ≡ 0) }
    {
        self.ops.is_empty()
    }

    /// The operations, given up by the list.
    pub fn into_vec(self) -> Vec<Op<A>, A>
        ensures value { result.items ≡ self }
        ensures valid { IsRising self }
    {
        let OpList { ops } = self;
        ops
    }
}
