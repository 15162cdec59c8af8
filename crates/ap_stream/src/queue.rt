ghost use Rattle.std.specs.Prelude.{◌≡◌, ◌+◌, ◌<◌, ◌≤◌, ◌^◌, ◌++◌, ◌∷◌, [], length, drop, take, vec_len, nat_lt, OnOk, OnErr};
ghost use Rattle.ap_stream.specs.declared.TheConstants.{SPAN_MAX};
ghost use Rattle.ap_stream.specs.Steps.{bytes_of};

use crate::SPAN_MAX;
use crate::item::Read;
use ap_symbol::Memory;
use std::alloc::Global;
use std::marker::Model;

/// The items that a handler holds, in their order, and the number of their bytes. Those that were
/// let go stay at the front of the vector until they are half of it, so that no item moves more
/// than once for each that was let go.
#[derive(Drop)]
pub struct Queue {
    items: Vec<Read>,
    from: usize,
    bytes: u64,
}

impl Model for Queue {
    ghost use Rattle.std.specs.Prelude.{◌≡◌, ◌≤◌, List, length, drop};
    ghost use Rattle.ap_stream.specs.declared.item.Read.{Read};
    ghost use Rattle.ap_stream.specs.Steps.{bytes_of};

    ghost Value = { List Read };

    ghost view = { λ q. drop q.from q.items.items };

    ghost invariant = { λ q. (q.from ≤ length q.items.items)
        × (q.bytes ≡ bytes_of (drop q.from q.items.items)) };
}

/// So many items that were let go are worth moving those behind them.
const BEHIND: usize = 64;

/// Whether the items that were let go are so many that the others are moved to the front: at least
/// as many as those, and either all or a good number.
fn is_worth_moving(from: usize, left: usize) -> bool {
    from >= left && (from >= BEHIND || left == 0)
}

/// Drops the items before this place.
fn let_go(items: &mut Vec<Read>, from: usize)
    requires { from ≤ vec_len items.old }
    ensures { items.new.items ≡ drop from items.old.items }
{
    if from == items.len() {
        items.clear();
        return;
    }
    items.drain(..from);
}

/// The bytes of so many items at the front.
fn size_of_front(reads: &[Read], count: usize) -> u64
    requires within { count ≤ length reads.now }
    requires fits { bytes_of reads.now < 2 ^ 64 }
    ensures { result ≡ bytes_of (take count reads.now) }
{
    let mut size = 0;
    for i in 0..count {
        size += reads[i].size;
    }
    size
}

impl Queue {
    /// A queue that holds nothing. It takes no memory.
    pub fn new(alloc: Global) -> Queue
        ensures { result ≡ [] }
    {
        Queue {
            items: Vec::new(alloc),
            from: 0,
            bytes: 0,
        }
    }

    /// Adds an item behind the others. After a refusal, which means want of memory, the same items
    /// are held.
    pub fn push(&mut self, read: Read) -> Result<(), Memory>
        requires { bytes_of self.old + read.size < 2 ^ 64 }
        ensures ok { OnOk result (self.new ≡ self.old ++ read ∷ []) }
        ensures err { OnErr result (self.new ≡ self.old) }
    {
        let size = read.size;
        self.items.push(read)?;
        self.bytes += size;
        Ok(())
    }

    /// The held items in order.
    pub fn as_slice(&self) -> &[Read]
        ensures { result.now ≡ self.now }
    {
        &self.items.as_slice()[self.from..]
    }

    /// The number of held items.
    pub fn len(&self) -> usize
        ensures { result ≡ length self.now }
    {
        self.items.len() - self.from
    }

    /// The bytes of the held items.
    pub fn bytes(&self) -> u64
        ensures { result ≡ bytes_of self.now }
    {
        self.bytes
    }

    /// Whether so many items at the front have more bytes than may be held for one match. It looks
    /// at them only where all together have more.
    pub fn is_over(&self, count: usize) -> bool
        requires { count ≤ length self.now }
        ensures { result ≡ nat_lt SPAN_MAX (bytes_of (take count self.now)) }
    {
        if self.bytes <= SPAN_MAX as u64 {
            false
        } else {
            size_of_front(self.as_slice(), count) > SPAN_MAX as u64
        }
    }

    /// Lets so many items at the front go.
    pub fn forget(&mut self, count: usize)
        requires { count ≤ length self.old }
        ensures { self.new ≡ drop count self.old }
    {
        self.bytes -= size_of_front(self.as_slice(), count);
        self.from += count;
        if is_worth_moving(self.from, self.items.len() - self.from) {
            let_go(&mut self.items, self.from);
            self.from = 0;
        }
    }
}
