//! What holds of the notes of periods.

ghost use Rattle.census_noted.specs.Laws.{WhatIsSoHolds, WhatIsSoIsLeast};

use oct_window::laws::shown_periods_are_least;

/// A period of which a search says that it is so holds for every heap from its start on.
pub fn what_is_so_holds()
    ensures { WhatIsSoHolds }
{}

/// It is the least period of the game, and holds from no earlier heap on.
pub fn what_is_so_is_least()
    ensures { WhatIsSoIsLeast }
{
    shown_periods_are_least();
}
