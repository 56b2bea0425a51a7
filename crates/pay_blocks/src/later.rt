ghost use Rattle.std.specs.Prelude.{◌≡◌, ◌≢◌, ◌+◌, ◌-◌, ◌^◌, ◌<◌, ◌≤◌, ℕ, true, false, List, [], ◌∷◌, ◌++◌, length, map, take, drop, slice_get, slice_set, slice_index_or, Some};
ghost use Rattle.std.specs.Vec.{vec_capacity};
ghost use Rattle.std.specs.List.{remove};
ghost use Rattle.std.specs.Option.{option_to_list};
ghost use Rattle.std.specs.List.Sorted.{IsPartitionedBy, IsPartitionPoint};
ghost use Rattle.pay_blocks.specs.declared.limits.TheConstants.{MOST};
ghost use Rattle.pay_blocks.specs.Parts.{BlockParts};
ghost use Rattle.pay_blocks.specs.Laid.{begins, lowered, raised, AreLaid, IsPut, IsTakenFrom};

use crate::block::Block;
use crate::comes_after::ComesAfter;

/// How many blocks begin at a place or before it.
pub fn begun<T: Copy>(blocks: &Vec<Block<T>>, place: usize) -> usize
    requires { (start : ℕ) × AreLaid start blocks.now.items }
    ensures within { result ≤ length blocks.now.items }
    ensures begun { (k : ℕ) (d : BlockParts T) → k < result → (slice_index_or blocks.now.items k d).start ≤ place }
    ensures ahead { (k : ℕ) (d : BlockParts T) → result ≤ k → k < length blocks.now.items → place < (slice_index_or blocks.now.items k d).start }
{
    blocks.partition_point(|block| block.start() <= place)
}

/// How many blocks begin with an item that comes before what is sought.
pub fn passed<T: Copy, S: ComesAfter<T>>(blocks: &Vec<Block<T>>, sought: &S) -> usize
    requires { IsPartitionedBy (λ block. begins (S.after sought.now) block.items) blocks.now.items }
    ensures within { result ≤ length blocks.now.items }
    ensures passed { IsPartitionPoint (λ block. begins (S.after sought.now) block.items ≡ true) (λ block. begins (S.after sought.now) block.items ≡ false) blocks.now.items result }
{
    blocks.partition_point(|block| block.begins_before(sought))
}

/// Each block from one on begins one place later.
pub fn raise_from<T: Copy>(blocks: &mut Vec<Block<T>>, from: usize)
    requires within { from ≤ length blocks.old.items }
    requires fits { (k : ℕ) (d : BlockParts T) → from ≤ k → k < length blocks.old.items → (slice_index_or blocks.old.items k d).start < 2 ^ 64 - 1 }
    ensures items { blocks.new.items ≡ take from blocks.old.items ++ map raised (drop from blocks.old.items) }
    ensures capacity { vec_capacity blocks.new ≡ vec_capacity blocks.old }
{
    for place in from..blocks.len() {
        let block = &mut blocks[place];
        block.raise();
    }
}

/// Each block from one on begins one place earlier.
pub fn lower_from<T: Copy>(blocks: &mut Vec<Block<T>>, from: usize)
    requires within { from ≤ length blocks.old.items }
    requires fits { (k : ℕ) (d : BlockParts T) → from ≤ k → k < length blocks.old.items → 1 ≤ (slice_index_or blocks.old.items k d).start }
    ensures items { blocks.new.items ≡ take from blocks.old.items ++ map lowered (drop from blocks.old.items) }
    ensures capacity { vec_capacity blocks.new ≡ vec_capacity blocks.old }
{
    for place in from..blocks.len() {
        let block = &mut blocks[place];
        block.lower();
    }
}

/// Blocks after one into which one more was put: they begin one place later, and what was split off comes before them.
pub fn make_way<T: Copy>(blocks: &mut Vec<Block<T>>, from: usize, next: Option<Block<T>>)
    requires within { from ≤ length blocks.old.items }
    requires fits { (k : ℕ) (d : BlockParts T) → from ≤ k → k < length blocks.old.items → (slice_index_or blocks.old.items k d).start < 2 ^ 64 - 1 }
    requires room { 1 ≤ length (option_to_list next) → length blocks.old.items < vec_capacity blocks.old }
    ensures { blocks.new.items ≡ take from blocks.old.items ++ (option_to_list next ++ map raised (drop from blocks.old.items)) }
{
    raise_from(blocks, from);
    let Some(block) = next else {
        return;
    };
    match blocks.insert(from, block) {
        Ok(()) => {}
        Err(_) => unreachable!(),
    }
}

/// Puts one more into a block, at a place of the list.
pub fn put_in<T: Copy>(
    blocks: &mut Vec<Block<T>>,
    at: usize,
    place: usize,
    item: T,
    spare: &mut Vec<T>,
) -> Option<Block<T>>
    requires there { at < length blocks.old.items }
    requires begun { (d : BlockParts T) → (slice_index_or blocks.old.items at d).start ≤ place }
    requires within { (d : BlockParts T) → place ≤ (slice_index_or blocks.old.items at d).start + length (slice_index_or blocks.old.items at d).items }
    requires few { (d : BlockParts T) → length (slice_index_or blocks.old.items at d).items ≤ MOST }
    requires fits { (d : BlockParts T) → (slice_index_or blocks.old.items at d).start + length (slice_index_or blocks.old.items at d).items < 2 ^ 64 }
    requires room { (d : BlockParts T) → MOST ≤ (slice_index_or blocks.old.items at d).capacity }
    requires spare { spare.old.items ≡ [] }
    requires spare_room { MOST ≤ vec_capacity spare.old }
    ensures put { (old new : BlockParts T) × (old ≡ slice_index_or blocks.old.items at old) × IsPut old (place - old.start) item new result × (blocks.new.items ≡ slice_set blocks.old.items at new) }
    ensures capacity { vec_capacity blocks.new ≡ vec_capacity blocks.old }
    ensures spare { spare.new.items ≡ [] }
{
    let is_last = at + 1 == blocks.len();
    let block = &mut blocks[at];
    let offset = place - block.start();
    block.put(offset, item, is_last, spare)
}

/// Takes an item out of a block, at a place of the list.
pub fn take_out<T: Copy>(blocks: &mut Vec<Block<T>>, at: usize, place: usize) -> T
    requires there { at < length blocks.old.items }
    requires begun { (d : BlockParts T) → (slice_index_or blocks.old.items at d).start ≤ place }
    requires within { (d : BlockParts T) → place < (slice_index_or blocks.old.items at d).start + length (slice_index_or blocks.old.items at d).items }
    ensures { IsTakenFrom blocks.old.items blocks.new.items at place result }
{
    let block = &mut blocks[at];
    let offset = place - block.start();
    block.remove(offset)
}

/// Drops a block that has no items.
pub fn drop_empty<T: Copy>(blocks: &mut Vec<Block<T>>, at: usize)
    requires { at < length blocks.old.items }
    ensures empty { (d : BlockParts T) → length (slice_index_or blocks.old.items at d).items ≡ 0 → blocks.new.items ≡ remove blocks.old.items at }
    ensures kept { (d : BlockParts T) → 1 ≤ length (slice_index_or blocks.old.items at d).items → blocks.new.items ≡ blocks.old.items }
{
    let block = &blocks[at];
    if block.len() > 0 {
        return;
    }
    let _ = blocks.remove(at);
}
