//! The list in tiers.

ghost use Rattle.std.specs.Prelude.{◌≡◌, ◌+◌, ◌<◌, ◌≤◌, [], OnOk, length, option_copied, slice_get, slice_index_or};
ghost use Rattle.std.specs.List.{insert, remove};
ghost use Rattle.std.specs.List.Sorted.{IsBinarySearchResult, IsSearchInRange};

use crate::growing::{add_tiers, grow_tiers};
use crate::probe::Probe;
use crate::putting::put_in;
use crate::removing::take_out;
use crate::tier::{LEAST, size_for};
use crate::widening::append_all;
use outcome::Memory;
use std::alloc::{AllocError, Global};
use std::cmp::Ordering;
use std::collections::VecDeque;
use std::marker::Model;
use std::mem;

/// A list into which elements are put at any place. A contract sees the elements, and for how many more elements room was made.
#[derive(Drop)]
pub struct TieredVec<T> {
    alloc: Global,
    /// All tiers are full but the last that has elements. Behind that one there may be empty ones.
    tiers: Vec<VecDeque<T>>,
    /// How many elements a full tier has.
    size: usize,
    len: usize,
    /// How many elements there is room for in all.
    most: usize,
}

impl<T> Model for TieredVec<T> {
    ghost use Rattle.std.specs.Prelude.{◌-◌};
    ghost use Rattle.tiered_vec.specs.Tiers.{Tiered, tiered_code};

    ghost Value = { Tiered T };

    ghost coded = { tiered_code T.code };

    ghost use Rattle.tiered_vec.specs.within.Tiering.{AreTiers, items_of};

    ghost view = { λ v. record { items = items_of v.tiers.items; room = v.most - v.len } };

    ghost invariant = { λ v. AreTiers v.size v.tiers.items v.len v.most };
}

impl<T: Drop> TieredVec<T> {
    /// Returns an empty list. It takes no memory.
    pub fn new(alloc: Global) -> TieredVec<T>
        ensures { result.items ≡ [] }
    {
        TieredVec::of_size(alloc, LEAST)
    }

    /// Returns an empty list whose full tiers have `size` elements.
    fn of_size(alloc: Global, size: usize) -> TieredVec<T>
        requires { 0 < size }
        ensures items { result.items ≡ [] }
        ensures room { result.room ≡ 0 }
    {
        TieredVec {
            alloc,
            tiers: Vec::new(alloc),
            size,
            len: 0,
            most: 0,
        }
    }

    /// Returns the number of elements.
    pub fn len(&self) -> usize
        ensures { result ≡ length self.now.items }
    {
        self.len
    }

    /// Returns the element at a place, in constant time. The first place is 0. Returns `None` if no element is at the place.
    pub fn get(&self, place: usize) -> Option<&T>
        ensures { option_copied result ≡ slice_get self.now.items place }
    {
        if place < self.len {
            Some(self.at(place))
        } else {
            None
        }
    }

    /// Makes room for `more` further elements. If memory runs out, the elements and the room are as before. `Memory` comes too if
    /// there would be more elements than a `usize` counts.
    ///
    /// Each time that the list has become four times as long, it moves all elements into wider tiers. Meanwhile it has memory for
    /// both.
    pub fn reserve(&mut self, more: usize) -> Result<(), Memory>
        ensures same { self.new.items ≡ self.old.items }
        ensures kept { self.old.room ≤ self.new.room }
        ensures room { OnOk result (more ≤ self.new.room) }
    {
        let Some(most) = self.len.checked_add(more) else {
            return Err(AllocError);
        };
        if most <= self.most {
            return Ok(());
        }
        let size = size_for(most);
        if size > self.size {
            return self.widen(size, most);
        }
        self.make_room(most)
    }

    /// Makes room for `most` elements in all, in tiers of the size that they have.
    fn make_room(&mut self, most: usize) -> Result<(), Memory>
        requires { length self.old.items + self.old.room ≤ most }
        ensures same { self.new.items ≡ self.old.items }
        ensures kept { self.old.room ≤ self.new.room }
        ensures room { OnOk result (most ≤ length self.new.items + self.new.room) }
    {
        add_tiers(&mut self.tiers, self.alloc, self.size, most)?;
        grow_tiers(&mut self.tiers, self.size, self.len / self.size, most)?;
        self.most = most;
        Ok(())
    }

    /// Makes room for `most` elements in all, in tiers of another size. It moves all elements into these.
    fn widen(&mut self, size: usize, most: usize) -> Result<(), Memory>
        requires some { 0 < size }
        requires more { length self.old.items + self.old.room ≤ most }
        ensures same { self.new.items ≡ self.old.items }
        ensures kept { self.old.room ≤ self.new.room }
        ensures room { OnOk result (most ≤ length self.new.items + self.new.room) }
    {
        let mut wide = TieredVec::of_size(self.alloc, size);
        wide.make_room(most)?;
        let tiers = mem::replace(&mut self.tiers, Vec::new(self.alloc));
        append_all(&mut wide, tiers);
        *self = wide;
        Ok(())
    }

    /// Puts an element at a place, from 0 up to the length. Then the elements from there on are one place further. A caller has made
    /// room before, so it takes no memory. It moves at most half a tier, and one element of each tier behind.
    pub fn insert(&mut self, place: usize, x: T)
        requires inside { place ≤ length self.old.items }
        requires room { 1 ≤ self.old.room }
        ensures items { self.new.items ≡ insert self.old.items place x }
        ensures room { self.old.room ≤ self.new.room + 1 }
    {
        put_in(&mut self.tiers, self.size, place, x);
        self.len += 1;
    }

    /// Removes the element at a place, and drops it. It moves at most half a tier, and one element of each tier behind.
    pub fn remove(&mut self, place: usize)
        requires { place < length self.old.items }
        ensures items { self.new.items ≡ remove self.old.items place }
        ensures room { self.new.room ≡ self.old.room + 1 }
    {
        take_out(&mut self.tiers, self.size, place);
        self.len -= 1;
    }

    /// Returns the element at a place that is there.
    fn at(&self, place: usize) -> &T
        requires { place < length self.now.items }
        ensures { result.now ≡ slice_index_or self.now.items place result.now }
    {
        &self.tiers[place / self.size][place % self.size]
    }

    /// Searches for what the probe looks for, by halving. Returns `Ok` of a place where it lies. If the elements ascend and it is not
    /// there, returns `Err` of the place where it belongs.
    pub fn search<Q: Probe<T>>(&self, probe: &Q) -> Result<usize, usize>
        ensures bound { IsSearchInRange result (length self.now.items) }
        ensures position { IsBinarySearchResult (Q.order probe.now) self.now.items result }
    {
        let mut low = 0;
        let mut high = self.len();
        while low < high {
            let middle = low + (high - low) / 2;
            match probe.compare(self.at(middle)) {
                Ordering::Equal => return Ok(middle),
                Ordering::Less => low = middle + 1,
                Ordering::Greater => high = middle,
            }
        }
        Err(low)
    }
}
