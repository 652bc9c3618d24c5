//! What holds of the periods of every game. A caller gets each law from the contract of its function.

ghost use Rattle.oct_window.specs.Comparisons.{LeastStartsAreLeast};
ghost use Rattle.oct_window.specs.Repeats.{ShownPeriodsAreLeast};
ghost use Rattle.oct_window.specs.Seeking.{MarkedPeriodsAreSeen};
ghost use Rattle.oct_window.specs.Watched.{MarksAreOne};

/// The least period that first nim-values show, from the least heap, is the least period of the game, and holds from no
/// earlier heap on.
pub fn shown_periods_are_least()
    ensures { ShownPeriodsAreLeast }
{}

/// Where a period holds from some heap on, and no shorter one does, the least heap from which on it holds, from 1 on, is the
/// one behind the last heap whose value does not come again one period later.
pub fn least_starts_are_least()
    ensures { LeastStartsAreLeast }
{}

/// Where a watch has its mark follows from the heap at which it began and the number of its values.
pub fn marks_are_one()
    ensures { MarksAreOne }
{}

/// Where no period is seen, none holds from a window before the mark on that ends behind it.
pub fn marked_periods_are_seen()
    ensures { MarkedPeriodsAreSeen }
{}
