//! Contents that grow by taking in one another, and the least upper bound of many.

ghost use Rattle.std.specs.Prelude.{◌≡◌, OnOk, OnErr};
ghost use Rattle.std.specs.List.{All};
ghost use Rattle.oct_join.specs.Order.{IsPartialOrder, IsLeastUpperBound, IsLeastUpperBoundOfAll, IsBetween, bound_of_all};

use std::alloc::AllocError;

/// A replicated value: what it holds is its content, and contents are ordered by what they hold.
///
///     one.join(&other)?;      // one holds what one and other held, and nothing else
///
/// Each implementation proves that `below` is a partial order and that `bound` gives least upper bounds under it. So
/// joins commute, associate, and change nothing when they are repeated.
pub trait Join {
    // One content holds no more than another.
    ghost below: { Self → Self → Type 0 };

    // The least upper bound of two contents.
    ghost bound: { Self → Self → Self };

    /// Takes in what the other holds. Where memory is refused, what was held stays, and part of what the other holds
    /// may have come in: the content lies between the old one and the bound. The same call may then be made again. Memory
    /// can be refused only where the other holds something more.
    fn join(&mut self, other: &Self) -> Result<(), AllocError>
        ensures ok { OnOk result (self.new ≡ bound self.old other.now) }
        ensures err { OnErr result (IsBetween below self.old self.new (bound self.old other.now)) }
        ensures absent { OnErr result (¬ below other.now self.old) };

    // What each `impl` proves.
    ghost order: { IsPartialOrder below };

    ghost least: { (x y : Self) → IsLeastUpperBound below x y (bound x y) };
}

/// Takes in what each of the others holds. Where memory is refused, the content lies between the old one and the bound
/// of all. Memory can be refused only where one of the others holds something more.
pub fn gather<J: Join>(target: &mut J, others: &[J]) -> Result<(), AllocError>
    ensures ok { OnOk result (target.new ≡ bound_of_all J.bound target.old others.now) }
    ensures err { OnErr result (IsBetween J.below target.old target.new (bound_of_all J.bound target.old others.now)) }
    ensures absent { OnErr result (¬ All (λ y. J.below y target.old) others.now) }

    // That bound is the least.
    ensures least { IsLeastUpperBoundOfAll J.below target.old others.now (bound_of_all J.bound target.old others.now) }
{
    for other in others {
        target.join(other)?;
    }
    Ok(())
}
