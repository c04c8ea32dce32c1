// The blocks in which a list keeps its items.
ghost use Rattle.std.specs.Prelude.{◌≡◌, ◌<◌, ◌↔◌, ◌++◌, ◌∷◌, [], ℕ, Some, length, slice_get, slice_index_or, remove, IfSome, IsSome, OnSome, OnOk, OnErr};
ghost use Rattle.std.specs.VecDeque.{deque_len};
ghost use Rattle.pipe_net.specs.Blocks.{IsPlace, joined};

use pipe_base::NoMemory;
use std::collections::VecDeque;

/// The most items of a block. It takes room as it is filled.
const BLOCK: usize = 512;

pub type Blocks<T> = VecDeque<VecDeque<T>>;

/// A place in blocks.
#[derive(Clone, Copy)]
pub struct Place {
    pub block: usize,
    pub at: usize,
}

/// Where a place of the whole list is. The first block is looked at first, since nearly all that is taken stands there, and
/// then the last one. Between them the blocks' counts lead to it.
pub fn find<T>(blocks: &Blocks<T>, len: usize, place: usize) -> Place
    requires len { len ≡ length (joined blocks.now.items) }
    requires within { place < len }
    ensures { IsPlace blocks.now.items place result }
{
    if place < blocks[0].len() {
        return Place {
            block: 0,
            at: place,
        };
    }
    let last = blocks.len() - 1;
    let before = len - blocks[last].len();
    if place >= before {
        return Place {
            block: last,
            at: place - before,
        };
    }
    let mut block = 0;
    let mut at = place;
    'counts: while at >= blocks[block].len() {
        at -= blocks[block].len();
        block += 1;
    }
    Place { block, at }
}

/// The item at a place.
pub fn at<T>(blocks: &Blocks<T>, place: Place) -> &T
    requires { (n : ℕ) × IsPlace blocks.now.items n place }
    ensures { (n : ℕ) → IsPlace blocks.now.items n place → slice_get (joined blocks.now.items) n ≡ Some result.now }
{
    &blocks[place.block][place.at]
}

/// Puts an item at the end: into the last block, or into a new one where that is full.
pub fn push<T: Drop>(blocks: &mut Blocks<T>, item: T) -> Result<(), NoMemory>
    ensures ok { OnOk result (joined blocks.new.items ≡ joined blocks.old.items ++ item ∷ []) }
    ensures err { OnErr result (joined blocks.new.items ≡ joined blocks.old.items) }
{
    if let Some(last) = blocks.back_mut() {
        if last.len() < BLOCK {
            last.push_back(item)?;
            return Ok(());
        }
    }
    let mut block = VecDeque::new(*blocks.allocator());
    block.push_back(item)?;
    blocks.push_back(block)?;
    Ok(())
}

/// Takes the item at a place out. A block goes with its last item, but where it is the only one: its room serves again.
pub fn take<T: Drop>(blocks: &mut Blocks<T>, place: Place) -> Option<T>
    requires { (n : ℕ) × IsPlace blocks.old.items n place }
    ensures item { (n : ℕ) → IsPlace blocks.old.items n place → result ≡ slice_get (joined blocks.old.items) n }
    ensures left { (n : ℕ) → IsPlace blocks.old.items n place
        → joined blocks.new.items ≡ remove (joined blocks.old.items) n }
{
    let block = &mut blocks[place.block];
    let item = remove(block, place.at);
    if block.is_empty() && blocks.len() > 1 {
        blocks.remove(place.block);
    }
    item
}

/// Takes the item at a place of a block out. The first one, as mostly, leaves without a look at the others.
fn remove<T>(block: &mut VecDeque<T>, at: usize) -> Option<T>
    ensures value { IfSome result (λ item. item ≡ slice_index_or block.old.items at item) }
    ensures items { OnSome result (block.new.items ≡ remove block.old.items at) }
    ensures variant { IsSome result ↔ (at < deque_len block.old) }
{
    if at == 0 {
        block.pop_front()
    } else {
        block.remove(at)
    }
}
