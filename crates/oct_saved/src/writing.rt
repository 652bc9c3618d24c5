//! The text of a place.

ghost use Rattle.std.specs.Prelude.{◌≡◌, ◌++◌, IfOk, OnOk};
ghost use Rattle.oct_saved.specs.Numbers.{listing, place_numbers, place_scalars, reader_scalars, stage_lists, window_lists, window_scalars};
ghost use Rattle.oct_saved.specs.Saved.{AreWords, FitsMark, FitsMask, FitsMasks, FitsPlace, number_bytes, saved_text};

use crate::output::{put_list, put_number, put_numbers};
use oct_window::{Place, Reader, Stage, Window};
use sha2::{Digest, Sha256};
use std::alloc::{AllocError, Allocator};

/// The text of a place, as `read_place` reads it. It fails where a request for memory is refused, and takes memory for the
/// text twice.
pub fn write_place<A: Allocator + Copy>(
    alloc: A,
    place: &Place<A>,
) -> Result<Vec<u8, A>, AllocError>
    ensures text { IfOk result (λ text. text.items ≡ saved_text place.now) }
    ensures fits { OnOk result (FitsPlace place.now) }
{
    let body = body_of(alloc, place)?;
    let mut text = Vec::new(alloc);
    text.extend_from_slice(b"OGW1")?;
    text.extend_from_slice(&Sha256::digest(body.as_slice()))?;
    text.extend_from_slice(&body)?;
    Ok(text)
}

// The numbers of a place, as bytes.
fn body_of<A: Allocator + Copy>(alloc: A, place: &Place<A>) -> Result<Vec<u8, A>, AllocError>
    ensures bytes { IfOk result (λ body. body.items ≡ number_bytes (place_numbers place.now)) }
    ensures fits { OnOk result (FitsPlace place.now) }
{
    let mut out = Vec::new(alloc);
    put_scalars(&mut out, place)?;
    put_list(&mut out, place.code.digits())?;
    put_stage(&mut out, &place.stage)?;
    Ok(out)
}

// Appends the scalars of a place.
fn put_scalars<A: Allocator + Copy>(
    out: &mut Vec<u8, A>,
    place: &Place<A>,
) -> Result<(), AllocError>
    ensures bytes { OnOk result (out.new.items ≡ out.old.items ++ number_bytes (listing (place_scalars place.now))) }
    ensures words { OnOk result (AreWords (listing (place_scalars place.now))) }
    ensures masks { OnOk result (FitsMasks place.now.stage) }
{
    let head = usize::from(place.code.head());
    match &place.stage {
        Stage::Watching(watch) => {
            put_number(out, 9)?;
            put_numbers(out, &[0, head, place.listed, watch.at])?;
            put_numbers(out, &scalars_of(&watch.window))
        }
        Stage::Comparing(seen) => {
            let comparison = &seen.comparison;
            put_number(out, 19)?;
            put_numbers(out, &[1, head, place.listed, seen.start, seen.values])?;
            put_numbers(out, &[comparison.period, comparison.start])?;
            put_reader(out, &comparison.first)?;
            put_reader(out, &comparison.second)
        }
    }
}

// Appends the scalars of a reader.
fn put_reader<A: Allocator + Copy>(
    out: &mut Vec<u8, A>,
    reader: &Reader<A>,
) -> Result<(), AllocError>
    ensures bytes { OnOk result (out.new.items ≡ out.old.items ++ number_bytes (reader_scalars reader.now)) }
    ensures words { OnOk result (AreWords (reader_scalars reader.now)) }
    ensures mask { OnOk result (FitsMask reader.now.window.rare.mask) }
{
    put_numbers(out, &[reader.heap])?;
    put_numbers(out, &scalars_of(&reader.window))
}

// The scalars of a window.
fn scalars_of<A: Allocator + Copy>(window: &Window<A>) -> [usize; 5]
    ensures scalars { result ≡ window_scalars window.now }
    ensures mask { FitsMask window.now.rare.mask }
{
    let mask = window.rare.mask;
    [
        window.reach,
        window.count,
        mask.bits as usize,
        usize::from(mask.parity),
        usize::from(mask.turn),
    ]
}

// Appends the lists of what goes on behind the first values.
fn put_stage<A: Allocator + Copy>(out: &mut Vec<u8, A>, stage: &Stage<A>) -> Result<(), AllocError>
    ensures bytes { OnOk result (out.new.items ≡ out.old.items ++ number_bytes (stage_lists stage.now)) }
    ensures words { OnOk result (AreWords (stage_lists stage.now)) }
    ensures mark { OnOk result (FitsMark stage.now) }
{
    match stage {
        Stage::Watching(watch) => {
            put_lists(out, &watch.window)?;
            put_list(out, &watch.mark)
        }
        Stage::Comparing(seen) => {
            put_lists(out, &seen.comparison.first.window)?;
            put_lists(out, &seen.comparison.second.window)
        }
    }
}

// Appends the rare heaps and the values of a window.
fn put_lists<A: Allocator + Copy>(
    out: &mut Vec<u8, A>,
    window: &Window<A>,
) -> Result<(), AllocError>
    ensures bytes { OnOk result (out.new.items ≡ out.old.items ++ number_bytes (window_lists window.now)) }
    ensures words { OnOk result (AreWords (window_lists window.now)) }
{
    put_list(out, &window.rare.heaps)?;
    put_list(out, &window.held)
}
