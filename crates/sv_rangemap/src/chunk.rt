//! The chunks of a list: where an item stands, and a change of one chunk.
ghost use Rattle.std.specs.Prelude.{◌≡◌, ◌+◌, ◌<◌, ◌≤◌, ◌^◌, IfOk, OnErr, OnOk, length, slice_index_or};
ghost use Rattle.std.specs.List.{insert, remove};
ghost use Rattle.sv_rangemap.specs.Chunking.{AreCounted, HaveSameItems, IsChunkOf, items_in};

use std::alloc::AllocError;

// A chunk of so many items is cut in two before it grows.
const MOST: usize = 512;

/// Neighbouring items of a list, and how many items stand before them.
#[derive(Drop)]
pub(crate) struct Chunk<T> {
    pub(crate) first: usize,
    pub(crate) items: Vec<T>,
}

// The last chunk that begins at that place of the list or before.
pub(crate) fn find<T>(chunks: &Vec<Chunk<T>>, index: usize) -> usize
    requires some { 0 < length chunks.now.items }
    requires counted { AreCounted (length chunks.now.items) chunks.now.items }
    ensures { IsChunkOf index chunks.now.items result }
{
    let mut low = 0;
    let mut high = chunks.len();
    while high - low > 1 {
        let middle = low + (high - low) / 2;
        if chunks[middle].first <= index {
            low = middle;
        } else {
            high = middle;
        }
    }
    low
}

// Counts anew what stands before the chunks from that one on.
fn count<T>(chunks: &mut Vec<Chunk<T>>, from: usize)
    requires some { 0 < from }
    requires listed { from ≤ length chunks.old.items }
    requires counted { AreCounted from chunks.old.items }
    requires fits { length (items_in chunks.old.items) < 2 ^ 64 }
    ensures same { HaveSameItems chunks.old.items chunks.new.items }
    ensures counted { AreCounted (length chunks.new.items) chunks.new.items }
{
    let before = &chunks[from - 1];
    let mut next = before.first + before.items.len();
    for index in from..chunks.len() {
        let chunk = &mut chunks[index];
        chunk.first = next;
        next += chunk.items.len();
    }
}

// Cuts a chunk in two. The list stays as it is, also where memory is missing.
fn cut<T: Drop>(chunks: &mut Vec<Chunk<T>>, at: usize) -> Result<(), AllocError>
    requires listed { at < length chunks.old.items }
    requires counted { AreCounted (length chunks.old.items) chunks.old.items }
    requires fits { length (items_in chunks.old.items) < 2 ^ 64 }
    ensures some { 0 < length chunks.new.items }
    ensures counted { AreCounted (length chunks.new.items) chunks.new.items }
    ensures same { items_in chunks.new.items ≡ items_in chunks.old.items }
{
    // With room for the new chunk, its insertion can't fail and lose the items.
    chunks.reserve(1)?;
    let chunk = &mut chunks[at];
    let half = chunk.items.len() / 2;
    let items = chunk.items.split_off(half)?;
    chunks.insert(at + 1, Chunk { first: 0, items })?;
    count(chunks, at + 1);
    Ok(())
}

// The chunk for an item at that place of the list, after a cut where it was full.
fn make_room<T: Drop>(chunks: &mut Vec<Chunk<T>>, index: usize) -> Result<usize, AllocError>
    requires some { 0 < length chunks.old.items }
    requires counted { AreCounted (length chunks.old.items) chunks.old.items }
    requires fits { length (items_in chunks.old.items) < 2 ^ 64 }
    ensures some { 0 < length chunks.new.items }
    ensures counted { AreCounted (length chunks.new.items) chunks.new.items }
    ensures same { items_in chunks.new.items ≡ items_in chunks.old.items }
    ensures place { IfOk result (λ at. IsChunkOf index chunks.new.items at) }
{
    let at = find(chunks, index);
    if chunks[at].items.len() < MOST {
        return Ok(at);
    }
    cut(chunks, at)?;
    Ok(find(chunks, index))
}

// Puts the item at that place of the list.
pub(crate) fn put<T: Drop>(
    chunks: &mut Vec<Chunk<T>>,
    index: usize,
    item: T,
) -> Result<(), AllocError>
    requires some { 0 < length chunks.old.items }
    requires counted { AreCounted (length chunks.old.items) chunks.old.items }
    requires inside { index ≤ length (items_in chunks.old.items) }
    requires fits { length (items_in chunks.old.items) + 1 < 2 ^ 64 }
    ensures some { 0 < length chunks.new.items }
    ensures counted { AreCounted (length chunks.new.items) chunks.new.items }
    ensures ok { OnOk result (items_in chunks.new.items ≡ insert (items_in chunks.old.items) index item) }
    ensures fault { OnErr result (items_in chunks.new.items ≡ items_in chunks.old.items) }
{
    let at = make_room(chunks, index)?;
    let chunk = &mut chunks[at];
    let place = index - chunk.first;
    chunk.items.insert(place, item)?;
    count(chunks, at + 1);
    Ok(())
}

// Takes the item at that place of the list out.
pub(crate) fn take_out<T>(chunks: &mut Vec<Chunk<T>>, index: usize) -> T
    requires some { 0 < length chunks.old.items }
    requires counted { AreCounted (length chunks.old.items) chunks.old.items }
    requires inside { index < length (items_in chunks.old.items) }
    requires fits { length (items_in chunks.old.items) < 2 ^ 64 }
    ensures some { 0 < length chunks.new.items }
    ensures counted { AreCounted (length chunks.new.items) chunks.new.items }
    ensures value { result ≡ slice_index_or (items_in chunks.old.items) index result }
    ensures items { items_in chunks.new.items ≡ remove (items_in chunks.old.items) index }
{
    let at = find(chunks, index);
    let chunk = &mut chunks[at];
    let place = index - chunk.first;
    let item = chunk.items.remove(place);
    count(chunks, at + 1);
    item
}
