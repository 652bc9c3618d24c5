//! How the period of a game is searched for in windows of its nim-values.

ghost use Rattle.std.specs.Prelude.{◌≡◌, ◌≤◌, false, true, max, Ok, Err, IfOk, IfErr, OnOk};
ghost use Rattle.oct_window.specs.Places.{IsKept, IsRightPlace, farthest};
ghost use Rattle.census_search.specs.Windowed.{IsResumedText, IsResumeFault, IsSoughtText, IsWindowFault, windowable};

use crate::sought_text::sought_text;
use census_state::Fault;
use oct_code::Code;
use oct_text::Form;
use oct_window::{FARTHEST, Keeper, Place, resume, seek};
use std::alloc::Global;

/// The most nim-values of a game that a search in windows computes: 2^60.
pub const WINDOW_LIMIT: u64 = 1_152_921_504_606_846_976;

/// Computes nim-values of a game, of which few are kept, until they show a period, or `count` of them are known, and gives the
/// text that says what was found: the least period of the game, the least heap from which on it holds, and how many values
/// were computed. It is seen where the values of a window come again, which are marked anew at lengths that double; so
/// a period may be shown by the values and not be seen in them. The keeper is given each place that the search comes to.
///
/// The fault is `Number` where `count` is 0 or above `WINDOW_LIMIT`, before any memory is asked for; `PastValue` where the
/// nim-value of a heap below `count` is above 65,535, before a period is seen; `File` where a place is not kept; and
/// `OutOfMemory`.
pub fn search_in_windows<K: Keeper<Global>>(
    alloc: Global,
    code: Code,
    count: u64,
    form: Form,
    keeper: &mut K,
) -> Result<Vec<u8>, Fault>
    ensures ok { IfOk result (λ text. IsSoughtText form false code count text.items) }
    ensures err { IfErr result (IsWindowFault K.may_refuse code count) }
    // Where the keeper did not keep a place, the search ends by that.
    ensures heeded { OnOk result (K.has_refused keeper.new ≡ K.has_refused keeper.old) }
    ensures number { IfErr (windowable count) (λ e. result ≡ Err e) }
{
    check_windowable(count)?;
    let sought = seek(alloc, &code, count as usize, keeper)?;
    Ok(sought_text(alloc, code, sought, false, form)?)
}

/// Takes a search in windows up again at a place, and says the same by the first `count` nim-values, or by as many as were
/// computed, where these are more; and that the search was taken up again. What the place has is believed.
///
/// The faults are those of `search_in_windows`.
pub fn resume_in_windows<K: Keeper<Global>>(
    alloc: Global,
    place: Place<Global>,
    count: u64,
    form: Form,
    keeper: &mut K,
) -> Result<Vec<u8>, Fault>
    requires { IsKept place }
    ensures ok { IsRightPlace place → IfOk result (λ text. IsSoughtText form true place.code (max count (farthest place.stage)) text.items) }
    ensures told { IfOk result (λ text. IsResumedText form place.code (max count (farthest place.stage)) (farthest place.stage) text.items) }
    ensures err { IfErr result (IsResumeFault K.may_refuse place.code count (farthest place.stage)) }
    ensures heeded { OnOk result (K.has_refused keeper.new ≡ K.has_refused keeper.old) }
    ensures number { IfErr (windowable count) (λ e. result ≡ Err e) }
{
    check_windowable(count)?;
    let code = place.code;
    let sought = resume(alloc, place, count as usize, keeper)?;
    Ok(sought_text(alloc, code, sought, true, form)?)
}

// Refuses a number of values that no search in windows computes.
fn check_windowable(count: u64) -> Result<(), Fault>
    ensures ok { OnOk result (windowable count ≡ Ok count) }
    ensures fits { OnOk result (count ≤ FARTHEST) }
    ensures err { IfErr result (λ e. windowable count ≡ Err e) }
{
    if count == 0 || count > WINDOW_LIMIT {
        return Err(Fault::Number);
    }
    Ok(())
}
