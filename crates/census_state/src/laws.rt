//! What holds of every file of a state and of some games alone, and the limit of a file as a number.

ghost use Rattle.std.specs.Prelude.{◌≡◌, ◌↔◌, Ok};
ghost use Rattle.oct_delta.specs.Bytes.{IsBytes};
ghost use Rattle.oct_delta.specs.State.{IsState};
ghost use Rattle.oct_delta.specs.Text.{Bytes};
ghost use Rattle.oct_record.specs.Content.{RecordContent};
ghost use Rattle.census_state.specs.Alone.{OnlyTheseAreKept};
ghost use Rattle.census_state.specs.Stored.{loaded};
ghost use Rattle.census_state.specs.declared.input.TheConstants.{INPUT_LIMIT};

use oct_delta::laws::texts_are_read;

/// What the commands read as a state is exactly the text of one.
pub fn states_are_read()
    ensures { (bytes : Bytes) (r : RecordContent) → IsBytes bytes → (loaded bytes ≡ Ok r) ↔ IsState bytes r.author r.ops }
{
    texts_are_read();
}

/// What is said of some games alone are exactly the operations that are of one of them: blocks and claims, and no notes.
pub fn only_these_are_kept()
    ensures { OnlyTheseAreKept }
{}

/// The limit as a number: the most bytes of an input or a file.
pub fn the_limit_is_this()
    ensures { INPUT_LIMIT ≡ 1073741824 }
{}
