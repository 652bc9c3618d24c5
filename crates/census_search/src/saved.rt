//! The saved search of a game.

ghost use Rattle.std.specs.Prelude.{◌≡◌, IfOk, IfErr};
ghost use Rattle.oct_saved.specs.Saved.{IsCoded, saved_text};
ghost use Rattle.oct_window.specs.Places.{IsKept};
ghost use Rattle.census_search.specs.Resumed.{IsSavedFault};

use census_state::{Fault, SavedError};
use oct_code::Code;
use oct_saved::read_place;
use oct_window::Place;
use std::alloc::Global;

/// The place of a saved search of this game. The first fault is `Saved`, where the file holds no search, or that of another
/// game; `OutOfMemory` may come before that.
pub fn read_search(alloc: Global, code: Code, text: &[u8]) -> Result<Place<Global>, Fault>
    ensures kept { IfOk result IsKept }
    ensures coded { IfOk result IsCoded }
    ensures code { IfOk result (λ place. place.code ≡ code) }
    ensures text { IfOk result (λ place. text.now ≡ saved_text place) }
    ensures err { IfErr result (IsSavedFault code text.now) }
{
    let place = read_place(alloc, text)?;
    if place.code != code {
        return Err(Fault::Saved(SavedError::Game));
    }
    Ok(place)
}
