//! A list in chunks: a change in its middle costs a chunk, and not all that follows.
ghost use Rattle.std.specs.Prelude.{◌≡◌, [], ◌∷◌, ◌+◌, ◌<◌, ◌^◌, IfOk, OnErr, OnOk, length, slice_index_or};
ghost use Rattle.std.specs.List.{insert, remove};
ghost use Rattle.std.specs.Borrow.{sem};

use crate::chunk::{Chunk, find, put, take_out};
use std::alloc::{AllocError, Global};
use std::marker::Model;

/// A list that is kept in chunks, and that contracts see as the list of its items.
#[derive(Drop)]
pub(crate) struct Chunks<T> {
    chunks: Vec<Chunk<T>>,
    len: usize,
}

impl<T> Model for Chunks<T> {
    ghost use Rattle.sv_rangemap.specs.Items.{Items, items_code};

    ghost Value = { Items T };

    ghost coded = { items_code T.code };

    ghost use Rattle.sv_rangemap.specs.Chunking.{AreChunks, items_in};

    ghost view = { λ list. record { items = items_in list.chunks.items } };

    ghost invariant = { λ list. AreChunks list.len list.chunks.items };
}

impl<T: Drop> Chunks<T> {
    ghost use Rattle.sv_rangemap.specs.Lends.{lends_item};

    /// The list of one item.
    pub(crate) fn one(alloc: Global, item: T) -> Result<Chunks<T>, AllocError>
        ensures { IfOk result (λ list. list.items ≡ item ∷ []) }
    {
        let mut items = Vec::with_capacity(alloc, 1)?;
        items.push(item)?;
        let mut chunks = Vec::with_capacity(alloc, 1)?;
        chunks.push(Chunk { first: 0, items })?;
        Ok(Chunks { chunks, len: 1 })
    }

    /// The number of items.
    pub(crate) fn len(&self) -> usize
        ensures { result ≡ length self.now.items }
    {
        self.len
    }

    /// The item at that place.
    pub(crate) fn get(&self, index: usize) -> &T
        requires { index < length self.now.items }
        ensures { result.now ≡ slice_index_or self.now.items index result.now }
    {
        let at = find(&self.chunks, index);
        let chunk = &self.chunks[at];
        &chunk.items[index - chunk.first]
    }

    /// The item at that place, for writing.
    pub(crate) fn get_mut(&mut self, index: usize) -> &mut T
        requires { index < length self.old.items }
        ensures* writes_back { sem 𝓛 (lends_item T.row self.entry index result) }
        ensures value { result.now ≡ slice_index_or self.old.items index result.now }
    {
        let at = find(&self.chunks, index);
        let chunk = &mut self.chunks[at];
        let place = index - chunk.first;
        &mut chunk.items[place]
    }

    /// Puts the item behind the one at that place. Where memory is missing the list stays as it is.
    pub(crate) fn insert_behind(&mut self, index: usize, item: T) -> Result<(), AllocError>
        requires { index < length self.old.items }
        ensures ok { OnOk result (self.new.items ≡ insert self.old.items (index + 1) item) }
        ensures fits { OnOk result (length self.new.items < 2 ^ 64) }
        ensures fault { OnErr result (self.new.items ≡ self.old.items) }
    {
        // No memory holds so many.
        if self.len == usize::MAX {
            return Err(AllocError);
        }
        put(&mut self.chunks, index + 1, item)?;
        self.len += 1;
        Ok(())
    }

    /// Takes the item at that place out.
    pub(crate) fn remove(&mut self, index: usize) -> T
        requires { index < length self.old.items }
        ensures value { result ≡ slice_index_or self.old.items index result }
        ensures items { self.new.items ≡ remove self.old.items index }
    {
        let item = take_out(&mut self.chunks, index);
        self.len -= 1;
        item
    }
}
