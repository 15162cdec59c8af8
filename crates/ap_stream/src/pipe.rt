ghost use Rattle.std.specs.Prelude.{◌≡◌, ℕ, ◌+◌, ◌-◌, ◌*◌, ◌==◌, ◌<◌, ◌≤◌, List, [], ◌++◌, take, drop, length, min, IfOk, vec_capacity, vec_len};

use crate::ROOM_MAX;
use ap_symbol::Memory;
use std::alloc::Global;
use std::marker::Model;

/// Bytes that come in behind and go out in front. What is left isn't moved at a drain; behind a
/// whole room of bytes it is moved once.
#[derive(Drop)]
pub struct Pipe {
    bytes: Vec<u8>,
    from: usize,
    room: usize,
}

impl Model for Pipe {
    ghost use Rattle.std.specs.Prelude.{ℕ, List, ◌≤◌, ◌+◌, ◌*◌, ◌-◌, ◌≡◌, length, drop, vec_capacity, vec_len};
    ghost use Rattle.ap_stream.specs.Limits.{room_max};
    ghost use Rattle.ap_stream.specs.Piped.{Piped};

    ghost Value = { Piped };

    ghost view = { λ p. record { bytes = drop p.from p.bytes.items; room = p.room } };

    ghost invariant = { λ p. (p.from ≤ vec_len p.bytes) × (vec_len p.bytes ≤ p.room + p.from)
        × (2 * p.room ≤ vec_capacity p.bytes) × (p.room ≤ room_max) };
}

/// Drops the first bytes.
fn cut(bytes: &mut Vec<u8>, from: usize)
    requires { from ≤ vec_len bytes.old }
    ensures items { bytes.new.items ≡ drop from bytes.old.items }
    ensures len { vec_len bytes.new + from ≡ vec_len bytes.old }
    ensures capacity { vec_capacity bytes.new ≡ vec_capacity bytes.old }
{
    let left = bytes.len() - from;
    bytes.copy_within(from.., 0);
    bytes.truncate(left);
}

/// Appends bytes, and answers where the list begins.
fn append(bytes: &mut Vec<u8>, from: usize, piece: &[u8], most: usize) -> usize
    requires from { from ≤ vec_len bytes.old }
    requires fits { vec_len bytes.old + length piece.now ≤ most + from }
    requires room { most ≤ vec_capacity bytes.old }
    ensures items { drop result bytes.new.items ≡ drop from bytes.old.items ++ piece.now }
    ensures from { result ≤ vec_len bytes.new }
    ensures len { (vec_len bytes.new - result) ≡ (vec_len bytes.old - from) + length piece.now }
    ensures capacity { vec_capacity bytes.old ≤ vec_capacity bytes.new }
{
    let mut start = from;
    if bytes.len() + piece.len() > bytes.capacity() {
        cut(bytes, from);
        start = 0;
    }
    match bytes.extend_from_slice(piece) {
        Ok(()) => start,
        Err(_) => unreachable!(),
    }
}

impl Pipe {
    /// An empty pipe with room for so many bytes. It takes all its memory here.
    pub fn new(alloc: Global, room: usize) -> Result<Pipe, Memory>
        requires some { 1 ≤ room }
        requires most { room ≤ ROOM_MAX }
        ensures empty { IfOk result (λ p. p.bytes ≡ []) }
        ensures room { IfOk result (λ p. p.room ≡ room) }
    {
        Ok(Pipe {
            bytes: Vec::with_capacity(alloc, 2 * room)?,
            from: 0,
            room,
        })
    }

    /// The bytes in it, the oldest first.
    pub fn bytes(&self) -> &[u8]
        ensures bytes { result.now ≡ self.now.bytes }
        ensures fits { length self.now.bytes ≤ self.now.room }
    {
        &self.bytes[self.from..]
    }

    /// Whether no byte is in it.
    pub fn is_empty(&self) -> bool
        ensures { result ≡ (length self.now.bytes == 0) }
    {
        self.from == self.bytes.len()
    }

    /// How many more bytes it can hold.
    pub fn free(&self) -> usize
        ensures count { result ≡ self.now.room - length self.now.bytes }
        ensures fits { length self.now.bytes ≤ self.now.room }
    {
        self.room - (self.bytes.len() - self.from)
    }

    /// Appends as many of the bytes as there is room for, and answers how many. It takes no memory.
    pub fn fill(&mut self, piece: &[u8]) -> usize
        ensures count { result ≡ min (length piece.now) (self.old.room - length self.old.bytes) }
        ensures bytes { self.new.bytes ≡ self.old.bytes ++ take result piece.now }
        ensures room { self.new.room ≡ self.old.room }
    {
        let count = piece.len().min(self.room - (self.bytes.len() - self.from));
        self.from = append(&mut self.bytes, self.from, &piece[..count], 2 * self.room);
        count
    }

    /// Drops so many of the oldest bytes. It takes no memory, and moves no other byte.
    pub fn drain(&mut self, count: usize)
        requires { count ≤ length self.old.bytes }
        ensures bytes { self.new.bytes ≡ drop count self.old.bytes }
        ensures room { self.new.room ≡ self.old.room }
    {
        self.from += count;
        if self.from == self.bytes.len() {
            self.bytes.clear();
            self.from = 0;
        }
    }
}
