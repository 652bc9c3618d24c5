//! Clocks as bytes.
#![tactic(auto, using(oct_ops::proofs::Growing::growing))]

ghost use Rattle.std.specs.Prelude.{◌≡◌, ◌↔◌, ◌<◌, ◌^◌, ◌++◌, true, None, Some, Ok, [], length, IfOk, IfErr, OnOk, OnErr, IsErrOf};
ghost use Rattle.std.specs.List.{flat_map};
ghost use Rattle.oct_join.specs.Clock as clock;
ghost use Rattle.oct_join.specs.Entries.{Entries};
ghost use Rattle.oct_delta.specs.Decoding.{all_of};
ghost use Rattle.oct_delta.specs.Reading.{Gives, GivesIfRoom, skipped, chain_at, follows, next_at};
ghost use Rattle.oct_delta.specs.Clocks.{IsClockText, author_cmp, entry_at, entries_at, entry_bytes, entries_bytes, clock_bytes, read_clock};
ghost use Rattle.oct_ops.specs.Growth.{Extends};

use crate::error::ClockError;
use crate::fault::{ReadError, TextFault};
use crate::input::Input;
use crate::output::{Put, put_each, put_u32};
use oct_join::Clock;
use std::alloc::{AllocError, Allocator};

// Whether the author is above the one before.
fn author_follows(before: Option<(u32, u32)>, entry: (u32, u32)) -> bool
    ensures { result ≡ follows author_cmp before entry }
{
    match before {
        None => true,
        Some((author, _)) => author.cmp(&entry.0).is_lt(),
    }
}

impl Input<'_> {
    // An author and its number.
    #[tactic(auto, unfolding(crate::specs::Clocks::entry_at))]
    fn entry(&mut self) -> Result<(u32, u32), TextFault>
        ensures value { Gives (λ x. (x, self.new)) result (entry_at self.old) }
        ensures valid { IfOk result clock.IsEntry }
    {
        let author = self.u32()?;
        let through = self.u32()?;
        if author == 0 || through == 0 {
            return Err(TextFault::Malformed);
        }
        Ok((author, through))
    }

    // An author above the one before, and its number.
    #[tactic(auto, unfolding(crate::specs::Reading::next_at))]
    fn next_entry(&mut self, before: Option<(u32, u32)>) -> Result<(u32, u32), TextFault>
        ensures value { Gives (λ x. (x, self.new)) result (next_at author_cmp entry_at before self.old) }
        ensures valid { IfOk result clock.IsEntry }
        ensures above { IfOk result (λ x. follows author_cmp before x ≡ true) }
    {
        let entry = self.entry()?;
        if !author_follows(before, entry) {
            return Err(TextFault::Malformed);
        }
        Ok(entry)
    }

    // Passes over so many authors with their numbers.
    fn skip_entries(&mut self, count: u32) -> Result<(), TextFault>
        ensures { Gives (λ _. self.new) result (skipped (chain_at (next_at author_cmp entry_at) None count self.old)) }
    {
        let mut before = None;
        for _ in 0..count {
            before = Some(self.next_entry(before)?);
        }
        Ok(())
    }

    // The clock of so many authors with their numbers.
    fn clock<A: Allocator>(&mut self, alloc: A, count: u32) -> Result<Clock<A>, ReadError>
        ensures { GivesIfRoom (λ t. (clock.entries t, self.new)) result (chain_at (next_at author_cmp entry_at) None count self.old) }
    {
        let mut clock = Clock::new(alloc);
        let mut before = None;
        for _ in 0..count {
            let entry = self.next_entry(before)?;
            clock.raise(entry.0, entry.1)?;
            before = Some(entry);
        }
        Ok(clock)
    }
}

// Whether the bytes are a clock's text, without memory.
fn check_clock(bytes: &[u8]) -> Result<(), TextFault>
    ensures ok { OnOk result ((es : Entries) × (entries_at bytes.now ≡ Ok (es, []))) }
    ensures err { OnErr result (all_of (entries_at bytes.now) ≡ None) }
{
    let mut input = Input::new(bytes);
    let count = input.u32()?;
    input.skip_entries(count)?;
    if !input.is_empty() {
        return Err(TextFault::Malformed);
    }
    Ok(())
}

// The clock of a text. Only memory can be missing.
fn build_clock<A: Allocator>(alloc: A, bytes: &[u8]) -> Result<Clock<A>, ReadError>
    requires { (es : Entries) × (entries_at bytes.now ≡ Ok (es, [])) }
    ensures ok { IfOk result (λ t. entries_at bytes.now ≡ Ok (clock.entries t, [])) }
    ensures err { IfErr result (λ e. e ≡ ReadError.Memory) }
{
    let mut input = Input::new(bytes);
    let count = input.u32()?;
    input.clock(alloc, count)
}

/// The clock that the bytes spell: a count, and then so many pairs of an author and a number, by rising authors. The
/// bytes are checked as a whole before anything grows. The answer is `Refused` exactly where they are no clock's text.
pub fn decode_clock<A: Allocator>(alloc: A, bytes: &[u8]) -> Result<Clock<A>, ClockError>
    ensures ok { IfOk result (λ t. IsClockText bytes.now t) }
    ensures read { IfOk result (λ t. read_clock bytes.now ≡ Some t) }
    ensures refused { IsErrOf result ClockError.Refused ↔ ((t : clock.Clock) → ¬ IsClockText bytes.now t) }
    ensures unread { IsErrOf result ClockError.Refused → read_clock bytes.now ≡ None }
    // Nothing grows before the bytes were found to be a clock's text.
    ensures memory { IsErrOf result ClockError.OutOfMemory → (t : clock.Clock) × IsClockText bytes.now t }
{
    if check_clock(bytes).is_err() {
        return Err(ClockError::Refused);
    }
    match build_clock(alloc, bytes) {
        Ok(clock) => Ok(clock),
        Err(_) => Err(ClockError::OutOfMemory),
    }
}

impl Put for (u32, u32) {
    ghost spelled = { entry_bytes };

    fn put<A: Allocator>(&self, out: &mut Vec<u8, A>) -> Result<(), AllocError> {
        put_u32(out, self.0)?;
        put_u32(out, self.1)
    }
}

/// Appends how many authors there are, and then each with its number. After a refusal what was there before is at the
/// front.
pub fn put_entries<A: Allocator>(
    out: &mut Vec<u8, A>,
    entries: &[(u32, u32)],
) -> Result<(), AllocError>
    requires { length entries.now < 2 ^ 32 }
    ensures ok { OnOk result (out.new.items ≡ out.old.items ++ entries_bytes entries.now) }
    ensures kept { Extends out.old.items out.new.items }
{
    put_u32(out, entries.len() as u32)?;
    put_each(out, entries)
}

/// Appends the one text of a clock to `out`. After a refusal `out` is as it was. A clock always has a text,
/// since its authors are distinct `u32`s.
#[tactic(auto, using(oct_ops::proofs::Growing::cutting))]
pub fn encode_clock<A: Allocator>(clock: &Clock<A>, out: &mut Vec<u8, A>) -> Result<(), AllocError>
    ensures ok { OnOk result (out.new.items ≡ out.old.items ++ clock_bytes clock.now) }
    ensures err { OnErr result (out.new.items ≡ out.old.items) }
{
    let length = out.len();
    if put_entries(out, clock.entries()).is_err() {
        out.truncate(length);
        return Err(AllocError);
    }
    Ok(())
}
