//! Commands over the bytes of their files.

ghost use Rattle.std.specs.Prelude.{◌≡◌, ◌≢◌, false, Ok, Err, IfOk, IfErr, IfSome, OnOk};
ghost use Rattle.census_core.specs.Performed.{number_fault, performed, stages_of};
ghost use Rattle.census_issue.specs.Turns.{Kept, KeptSome};
ghost use Rattle.census_state.specs.Replies.{answer_of};

use census_fold::{delta, delta_of_games};
use census_issue::{
    Aim, NoKeeper, TurnKeeper, claim, compute, find, give_turns, import, note, unnote,
};
use census_state::{Fault, Reply, Request, View, init, merge, renumber};
use census_tell::{Question, answer, games, page, show, show_only};
use oct_window::{Nobody, Progress};
use std::alloc::Global;

/// Does one command, from the bytes of the state file and of another file: what is to be written, and the text. `Init`
/// does not look at `state`; only `Import`, `Claim` and `Merge` look at `file`. After a fault nothing is to be written.
///
/// The first fault is answered: `Number`, then `Load`, then the command's own in the order in which it reads its words, then `Issue`, then
/// `TooMany`. `OutOfMemory` may come before any of them but those of a number alone, `Number` and the `Zero` of `Init` and `Renumber`.
pub fn perform(alloc: Global, request: &Request, state: &[u8], file: &[u8]) -> Result<Reply, Fault>
    ensures ok { IfOk result (λ reply. performed request.now state.now file.now ≡ Ok (answer_of reply)) }
    ensures err { IfErr result (λ e. e ≢ Fault.OutOfMemory → performed request.now state.now file.now ≡ Err e) }
    ensures numbers { IfSome (number_fault request.now) (λ e. result ≡ Err e) }
{
    perform_kept(alloc, request, state, file, &mut Nobody, &mut NoKeeper)
}

/// Does one command as `perform`, tells how far it is, and hands the keeper what is done after each game of `Extend` and `Survey`.
/// The fault is also `File`, where the keeper refuses. What was kept before a fault stands.
pub fn perform_kept<P: Progress, K: TurnKeeper<P>>(
    alloc: Global,
    request: &Request,
    state: &[u8],
    file: &[u8],
    progress: &mut P,
    keeper: &mut K,
) -> Result<Reply, Fault>
    ensures ok { IfOk result (λ reply. performed request.now state.now file.now ≡ Ok (answer_of reply)) }
    ensures kept { OnOk result (Kept K.keeps keeper.old (stages_of request.now state.now) keeper.new) }
    ensures err { IfErr result (λ e. e ≢ Fault.OutOfMemory → (e ≡ Fault.File → K.may_refuse ≡ false) → performed request.now state.now file.now ≡ Err e) }
    ensures stands { IfErr result (λ e. e ≢ Fault.File → KeptSome K.keeps keeper.old (stages_of request.now state.now) keeper.new) }
    ensures numbers { IfSome (number_fault request.now) (λ e. result ≡ Err e) }
{
    match request {
        Request::Init { id } => init(alloc, *id),
        Request::Renumber { id } => renumber(alloc, state, *id),
        Request::Import => import(alloc, state, file),
        Request::Claim { code } => claim(alloc, state, code, file),
        Request::Compute { code, count } => compute(alloc, state, code, *count),
        Request::Extend { count, codes } => {
            give_turns(alloc, state, *count, codes, Aim::Extend, progress, keeper)
        }
        Request::Find { codes, form } => find(alloc, state, codes, *form),
        Request::Survey { count, codes, form } => {
            let aim = Aim::Survey(*form);
            give_turns(alloc, state, *count, codes, aim, progress, keeper)
        }
        Request::Period { code, e, p } => census_issue::period(alloc, state, code, *e, *p),
        Request::Note { name, text } => note(alloc, state, name, text),
        Request::Unnote { name } => unnote(alloc, state, name),
        Request::Merge => merge(alloc, state, file),
        Request::Delta => delta(alloc, state),
        Request::DeltaOf { codes } => delta_of_games(alloc, state, codes),
        Request::Value { code, heaps, form } => {
            answer(alloc, state, code, Question::Value(heaps, *form))
        }
        Request::Move { code, heaps, form } => {
            answer(alloc, state, code, Question::Move(heaps, *form))
        }
        Request::Page { number } => page(alloc, state, *number),
        Request::Show => show(alloc, state, View::Catalogue),
        Request::Bfile { code } => answer(alloc, state, code, Question::Bfile),
        Request::Plot { code } => answer(alloc, state, code, Question::Plot),
        Request::Json => show(alloc, state, View::Json),
        Request::Report { shown } => show(alloc, state, View::Report(*shown)),
        Request::Games { codes, what, form } => games(alloc, state, codes, *what, *form),
        Request::Only { codes, view } => show_only(alloc, state, codes, *view),
    }
}
