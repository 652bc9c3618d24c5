//! A place from its text.

ghost use Rattle.std.specs.Prelude.{◌≡◌, ◌++◌, ℕ, List, false, IfErr, IfOk, IfSome, IsNone};
ghost use Rattle.oct_window.specs.Places.{IsKept};
ghost use Rattle.oct_window.specs.declared.place.Place as places;
ghost use Rattle.oct_saved.specs.Numbers.{place_numbers};
ghost use Rattle.oct_saved.specs.Reading.{IsSaved, RefusesBody, RefusesIf, RefusesPlace};
ghost use Rattle.oct_saved.specs.Saved.{AreWords, FitsPlace, has_tag, IsCoded, number_bytes, saved_text, summed_text, tag};

use crate::error::ReadError;
use crate::input::Input;
use crate::kept::is_kept;
use byteorder::{BigEndian, ByteOrder};
use oct_window::Place;
use sha2::{Digest, Sha256};
use std::alloc::Allocator;

// So many bytes has a checksum.
const SUM: usize = 32;

// So many bytes has a number.
const NUMBER: usize = 8;

/// The place of which this is the text. A search goes on from it in its code's game, and where it was right, it stays right.
/// The answer is `Version` exactly where the first four bytes are not `OGW1` or are missing, and `Refused` only for other
/// bytes that are the text of no place from which a search can go on. Memory is taken for what the text has, and never for
/// what a number in it says.
pub fn read_place<A: Allocator + Copy>(alloc: A, text: &[u8]) -> Result<Place<A>, ReadError>
    ensures kept { IfOk result IsKept }
    ensures coded { IfOk result IsCoded }
    ensures fits { IfOk result FitsPlace }
    ensures text { IfOk result (λ place. text.now ≡ saved_text place) }
    ensures err { IfErr result (RefusesPlace A text.now) }
{
    let body = summed(text)?;
    let numbers = numbers_of(alloc, body)?;
    place_of(alloc, &numbers)
}

// What stands behind the tag and the checksum, if it is the one that was summed.
fn summed(text: &[u8]) -> Result<&[u8], ReadError>
    ensures ok { IfOk result (λ body. text.now ≡ summed_text body.now) }
    ensures err { IfErr result (RefusesBody text.now) }
{
    let Some(rest) = behind_tag(text) else {
        return Err(ReadError::Version);
    };
    if rest.len() < SUM {
        return Err(ReadError::Refused);
    }
    let (sum, body) = rest.split_at(SUM);
    if Sha256::digest(body).as_slice() != sum {
        return Err(ReadError::Refused);
    }
    Ok(body)
}

// What stands behind the tag.
fn behind_tag(text: &[u8]) -> Option<&[u8]>
    ensures some { IfSome result (λ rest. text.now ≡ tag ++ rest.now) }
    ensures none { IsNone result → has_tag text.now ≡ false }
{
    match text {
        [b'O', b'G', b'W', b'1', rest @ ..] => Some(rest),
        _ => None,
    }
}

// The numbers that stand in these bytes.
fn numbers_of<A: Allocator + Copy>(alloc: A, body: &[u8]) -> Result<Vec<u64, A>, ReadError>
    ensures bytes { IfOk result (λ numbers. body.now ≡ number_bytes numbers.items) }
    ensures words { IfOk result (λ numbers. AreWords numbers.items) }
    ensures err { IfErr result (λ error. RefusesIf error ((numbers : List ℕ) × (body.now ≡ number_bytes numbers))) }
{
    if body.len() % NUMBER != 0 {
        return Err(ReadError::Refused);
    }
    let mut numbers = Vec::with_capacity(alloc, body.len() / NUMBER)?;
    let mut rest = body;
    while rest.len() >= NUMBER {
        let (front, after) = rest.split_at(NUMBER);
        numbers.push_reserved(BigEndian::read_u64(front));
        rest = after;
    }
    Ok(numbers)
}

// The place that is written by these numbers.
fn place_of<A: Allocator + Copy>(alloc: A, numbers: &[u64]) -> Result<Place<A>, ReadError>
    ensures saved { IfOk result IsSaved }
    ensures numbers { IfOk result (λ place. numbers.now ≡ place_numbers place) }
    ensures err { IfErr result (λ error. RefusesIf error ((p : places.Place A) × IsSaved p × (numbers.now ≡ place_numbers p))) }
{
    let mut input = Input::new(numbers);
    let place = input.place(alloc)?;
    if !input.is_empty() || !is_kept(&place) {
        return Err(ReadError::Refused);
    }
    Ok(place)
}
