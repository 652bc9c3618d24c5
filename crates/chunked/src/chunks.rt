//! A list that lies in short chunks, so that one more item moves few of them.

ghost use Rattle.std.specs.Prelude.{Vec, slice_index_or, ◌≡◌, ◌+◌, ◌-◌, ◌<◌, ◌≤◌, ◌^◌, true, false, length, set, take, drop, vec_len, [], OnOk, OnErr, IfOk, MatchOption, MatchResult};
ghost use Rattle.std.specs.Vec.{vec_capacity};
ghost use Rattle.std.specs.List.{insert, remove};
ghost use Rattle.std.specs.List.Sorted.{IsPartitionedBy, IsPartitionPoint};
ghost use Rattle.std.specs.Ordering.{is_lt};
ghost use Rattle.chunked.specs.Chunked.{chunked, index_of, HasRoom, IsBeside, IsChunked, IsFound, IsGapAt, IsInside, IsItemAt, IsNear, StandsAt};

use crate::iter::Iter;
use crate::search::{Change, IsBefore, Probe, Starts, Test, partition_point};
use std::alloc::{AllocError, Allocator};
use std::cmp::Ordering;

// From this length on a chunk is split before it grows. At 512 the list of chunks of 10,000,000 items is short enough to be
// moved when a chunk is split, and a chunk of references to be moved when it grows.
const LONGEST: usize = 512;

// The most items that the first part of a chunk keeps when the chunk is split where an item goes. What grows in rising order at
// some place leaves chunks of this length behind, and a part that is cut off has at least an eighth of a chunk.
const MOST_KEPT: usize = LONGEST / 8 * 7;

// The least items that a chunk which is full grows by. A longer one grows by an eighth: it is moved more often than if it
// were doubled, but a chunk is short, and in a long list most chunks have nearly no room that is not used.
const LEAST_ROOM: usize = 8;

/// A place in a list: that of an item, or one where an item may go. It holds until the list changes.
#[derive(Clone, Copy)]
pub struct Place {
    pub(crate) chunk: usize,
    pub(crate) at: usize,
}

/// A list in chunks. None of them is empty, the first one aside.
#[derive(Drop)]
pub struct Chunks<T, A: Allocator + Copy> {
    pub(crate) chunks: Vec<Vec<T, A>, A>,
    pub(crate) len: usize,
    pub(crate) alloc: A,
}

impl<T: Drop, A: Allocator + Copy> Chunks<T, A> {
    /// No item, with memory of `alloc` to grow in.
    pub fn new(alloc: A) -> Chunks<T, A>
        ensures chunked { IsChunked result }
        ensures empty { chunked result ≡ [] }
    {
        Chunks {
            chunks: Vec::new(alloc),
            len: 0,
            alloc,
        }
    }

    /// How many items there are.
    pub fn len(&self) -> usize
        requires { IsChunked self.now }
        ensures { result ≡ length (chunked self.now) }
    {
        self.len
    }

    /// The items in their order.
    pub fn iter(&self) -> Iter<'_, T, A>
        requires { IsChunked self.now }
        ensures { result ≡ chunked self.now }
    {
        Iter::new(&self.chunks, self.len)
    }

    /// The place between the items that pass the test and the others.
    pub fn partition_point<P: Test<T>>(&self, test: &P) -> Place
        requires chunked { IsChunked self.now }
        requires parted { IsPartitionedBy (P.passes test.now) (chunked self.now) }
        ensures point { IsPartitionPoint (λ e. P.passes test.now e ≡ true) (λ e. P.passes test.now e ≡ false) (chunked self.now) (index_of self.now result) }
        ensures within { index_of self.now result ≤ length (chunked self.now) }
        ensures near { IsNear self.now result }
    {
        let started = partition_point(&self.chunks, &Starts { test });
        let chunk = started.saturating_sub(1);
        let Some(items) = self.chunks.get(chunk) else {
            return Place { chunk: 0, at: 0 };
        };
        let at = partition_point(items, test);
        Place { chunk, at }
    }

    /// The place of an item that is equal to what is searched, or, where there is none, the place between the items that are
    /// less and the others.
    pub fn search<P: Probe<T>>(&self, probe: &P) -> Result<Place, Place>
        requires chunked { IsChunked self.now }
        requires parted { IsPartitionedBy (λ e. is_lt (P.order probe.now e)) (chunked self.now) }
        ensures { MatchResult result
            (λ p. IsInside self.now p × IsFound (P.order probe.now) (chunked self.now) (index_of self.now p))
            (λ p. IsNear self.now p × IsGapAt (P.order probe.now) (chunked self.now) (index_of self.now p)) }
    {
        let place = self.partition_point(&IsBefore { probe });
        let Some(here) = self.get(place) else {
            return Err(place);
        };
        match probe.compare(self.item_at(here)) {
            Ordering::Equal => Ok(here),
            Ordering::Less | Ordering::Greater => Err(place),
        }
    }

    /// The place of the item at a place, which may be after the end of its chunk; none where no item is there.
    pub fn get(&self, place: Place) -> Option<Place>
        requires chunked { IsChunked self.now }
        requires near { IsNear self.now place }
        ensures { MatchOption result (length (chunked self.now) ≤ index_of self.now place) (λ p. IsInside self.now p × (index_of self.now p ≡ index_of self.now place)) }
    {
        let chunk = self.chunks.get(place.chunk)?;
        if place.at < chunk.len() {
            return Some(place);
        }
        let chunk = place.chunk + 1;
        if chunk < self.chunks.len() {
            Some(Place { chunk, at: 0 })
        } else {
            None
        }
    }

    /// The place of the item before a place; none where no item is.
    pub fn before(&self, place: Place) -> Option<Place>
        requires chunked { IsChunked self.now }
        requires near { IsNear self.now place }
        ensures { MatchOption result (index_of self.now place ≡ 0) (λ p. IsInside self.now p × (index_of self.now p + 1 ≡ index_of self.now place)) }
    {
        if place.at > 0 {
            return Some(Place {
                chunk: place.chunk,
                at: place.at - 1,
            });
        }
        let chunk = place.chunk.checked_sub(1)?;
        let at = self.chunks[chunk].len().checked_sub(1)?;
        Some(Place { chunk, at })
    }

    /// The item at a place.
    pub fn item_at(&self, place: Place) -> &T
        requires inside { IsInside self.now place }
        ensures { IsItemAt self.now place result.now }
    {
        &self.chunks[place.chunk][place.at]
    }

    /// Changes the item at a place.
    pub fn change_at<C: Change<T>>(&mut self, place: Place, change: &C)
        requires chunked { IsChunked self.old }
        requires inside { IsInside self.old place }
        ensures chunked { IsChunked self.new }
        ensures items { (e : T) → IsItemAt self.old place e → chunked self.new ≡ set (chunked self.old) (index_of self.old place) (C.changed change.now e) }
    {
        change.change(&mut self.chunks[place.chunk][place.at]);
    }

    // Makes sure that there is a chunk for a place.
    fn start(&mut self, place: Place) -> Result<(), AllocError>
        requires chunked { IsChunked self.old }
        requires near { IsNear self.old place }
        ensures chunked { IsChunked self.new }
        ensures same { chunked self.new ≡ chunked self.old }
        ensures len { self.new.len ≡ self.old.len }
        ensures ok { OnOk result (IsBeside self.new place × (index_of self.new place ≡ index_of self.old place)) }
    {
        if self.chunks.is_empty() {
            self.chunks.reserve(1)?;
            self.chunks.push_reserved(Vec::new(self.alloc));
        }
        Ok(())
    }

    /// Makes room for an item at a place, and says where the place is then. It also gives up at 2^64 - 1 items, which no
    /// memory holds. A refusal leaves the list as it is.
    pub fn room_at(&mut self, place: Place) -> Result<Place, AllocError>
        requires chunked { IsChunked self.old }
        requires near { IsNear self.old place }
        ensures chunked { IsChunked self.new }
        ensures same { chunked self.new ≡ chunked self.old }
        ensures ok { IfOk result (λ p. IsBeside self.new p × HasRoom self.new p × (index_of self.new p ≡ index_of self.old place)) }
    {
        if self.len == usize::MAX {
            return Err(AllocError);
        }
        self.start(place)?;
        let place = self.split_long(place)?;
        self.reserve(place)?;
        Ok(place)
    }

    // Makes room for an item in the chunk of a place.
    fn reserve(&mut self, place: Place) -> Result<(), AllocError>
        requires chunked { IsChunked self.old }
        requires beside { IsBeside self.old place }
        requires count { self.old.len + 1 < 2 ^ 64 }
        ensures chunked { IsChunked self.new }
        ensures same { chunked self.new ≡ chunked self.old }
        ensures index { index_of self.new place ≡ index_of self.old place }
        ensures beside { IsBeside self.new place }
        ensures ok { OnOk result (HasRoom self.new place) }
    {
        make_room(&mut self.chunks[place.chunk])?;
        Ok(())
    }

    // Splits the chunk of a place if it is long, and says where the place is then.
    fn split_long(&mut self, place: Place) -> Result<Place, AllocError>
        requires chunked { IsChunked self.old }
        requires beside { IsBeside self.old place }
        ensures chunked { IsChunked self.new }
        ensures same { chunked self.new ≡ chunked self.old }
        ensures len { self.new.len ≡ self.old.len }
        ensures ok { IfOk result (λ p. IsBeside self.new p × (index_of self.new p ≡ index_of self.old place)) }
    {
        let len = self.chunks[place.chunk].len();
        if len < LONGEST {
            return Ok(place);
        }
        let is_last = place.chunk + 1 == self.chunks.len();
        let most = if is_last { len - 1 } else { MOST_KEPT };
        self.split(place, place.at.clamp(LONGEST / 2, most))
    }

    // Splits a chunk in two, of which the first one keeps `cut` items, and says where the place is then.
    fn split(&mut self, place: Place, cut: usize) -> Result<Place, AllocError>
        requires chunked { IsChunked self.old }
        requires beside { IsBeside self.old place }
        requires some { 0 < cut }
        requires more { (d : Vec T A) → cut < vec_len (slice_index_or self.old.chunks.items place.chunk d) }
        ensures chunked { IsChunked self.new }
        ensures same { chunked self.new ≡ chunked self.old }
        ensures len { self.new.len ≡ self.old.len }
        ensures ok { IfOk result (λ p. IsBeside self.new p × (index_of self.new p ≡ index_of self.old place)) }
    {
        self.cut(place, cut)?;
        if place.at <= cut {
            Ok(place)
        } else {
            Ok(Place {
                chunk: place.chunk + 1,
                at: place.at - cut,
            })
        }
    }

    // Splits a chunk in two, of which the first one keeps `cut` items. A place in it stays, or moves to the second.
    fn cut(&mut self, place: Place, cut: usize) -> Result<(), AllocError>
        requires chunked { IsChunked self.old }
        requires beside { IsBeside self.old place }
        requires some { 0 < cut }
        requires more { (d : Vec T A) → cut < vec_len (slice_index_or self.old.chunks.items place.chunk d) }
        ensures chunked { IsChunked self.new }
        ensures same { chunked self.new ≡ chunked self.old }
        ensures len { self.new.len ≡ self.old.len }
        ensures chunk { OnOk result (place.chunk + 1 < 2 ^ 64) }
        ensures lower { OnOk result (place.at ≤ cut → StandsAt self.old place self.new place) }
        ensures upper { OnOk result (cut < place.at → StandsAt self.old place self.new (record { chunk = place.chunk + 1; at = place.at - cut })) }
    {
        self.chunks.reserve(1)?;
        let upper = cut_off(&mut self.chunks[place.chunk], cut)?;
        insert_at(&mut self.chunks, place.chunk + 1, upper);
        Ok(())
    }

    /// Puts an item at a place with room.
    pub fn insert(&mut self, place: Place, item: T)
        requires chunked { IsChunked self.old }
        requires beside { IsBeside self.old place }
        requires room { HasRoom self.old place }
        ensures chunked { IsChunked self.new }
        ensures items { chunked self.new ≡ insert (chunked self.old) (index_of self.old place) item }
    {
        insert_at(&mut self.chunks[place.chunk], place.at, item);
        self.len += 1;
    }

    /// Takes out the item at a place.
    pub fn remove(&mut self, place: Place) -> T
        requires chunked { IsChunked self.old }
        requires inside { IsInside self.old place }
        ensures chunked { IsChunked self.new }
        ensures item { IsItemAt self.old place result }
        ensures items { chunked self.new ≡ remove (chunked self.old) (index_of self.old place) }
    {
        self.len -= 1;
        if self.chunks[place.chunk].len() > 1 {
            return self.chunks[place.chunk].remove(place.at);
        }
        let mut last = self.chunks.remove(place.chunk);
        last.remove(place.at)
    }
}

// Puts an item at a place of a chunk with room.
fn insert_at<T: Drop, A: Allocator>(items: &mut Vec<T, A>, at: usize, item: T)
    requires at { at ≤ length items.old.items }
    requires capacity { vec_len items.old < vec_capacity items.old }
    ensures { items.new.items ≡ insert items.old.items at item }
{
    if items.insert(at, item).is_err() {
        unreachable!()
    }
}

// Makes room for an item in a chunk.
fn make_room<T, A: Allocator>(chunk: &mut Vec<T, A>) -> Result<(), AllocError>
    ensures items { chunk.new.items ≡ chunk.old.items }
    ensures ok { OnOk result (vec_len chunk.new < vec_capacity chunk.new) }
{
    let len = chunk.len();
    if len == chunk.capacity() {
        chunk.reserve_exact(LEAST_ROOM.max(len / 8))?;
    }
    Ok(())
}

// Cuts the items from a place on off a chunk, which then has no room left.
fn cut_off<T, A: Allocator + Copy>(
    chunk: &mut Vec<T, A>,
    at: usize,
) -> Result<Vec<T, A>, AllocError>
    requires { at ≤ vec_len chunk.old }
    ensures items { OnOk result (chunk.new.items ≡ take at chunk.old.items) }
    ensures len { OnOk result (vec_len chunk.new ≡ at) }
    ensures tail { IfOk result (λ upper. upper.items ≡ drop at chunk.old.items) }
    ensures tail_len { IfOk result (λ upper. vec_len upper + at ≡ vec_len chunk.old) }
    ensures err { OnErr result (chunk.new ≡ chunk.old) }
{
    let upper = chunk.split_off(at)?;
    chunk.shrink_to_fit();
    Ok(upper)
}
