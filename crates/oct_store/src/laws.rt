//! What the summaries of a set of operations are, whatever the set.

ghost use Rattle.oct_store.specs.Laws.{LastIsGreatest, ThroughIsGreatest, ClockGivesThrough};

/// An author's last number is its greatest in the set, or 0 where it has none.
pub fn last_is_the_greatest()
    ensures { LastIsGreatest }
{}

/// All of an author's operations from the first through that number are in the set, and the next one is not.
pub fn through_ends_at_a_gap()
    ensures { ThroughIsGreatest }
{}

/// The clock of a set gives each author that number where it is at least 1, and has no other author.
pub fn clocks_give_through()
    ensures { ClockGivesThrough }
{}
