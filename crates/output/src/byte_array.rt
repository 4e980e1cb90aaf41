//! Some bytes in an array: a text of bounded length that takes no memory.
ghost use Rattle.std.specs.Prelude.{◌≡◌, ◌+◌, ◌<◌, ◌≤◌, ◌++◌, ◌∷◌, [], ◌↔◌, length, option_to_list, IsSome, IsTrue, MatchBool};

use std::marker::Model;

/// At most `N` bytes.
#[derive(Drop)]
pub struct Bytes<const N: usize> {
    bytes: [u8; N],
    len: usize,
}

impl<const N: usize> Model for Bytes<N> {
    ghost use Rattle.std.specs.Prelude.{◌≤◌, take};
    ghost use Rattle.output.specs.ByteArrayShown.{Held};

    ghost Value = { Held };

    ghost view = { λ b. record { items = take b.len b.bytes } };

    ghost invariant = { λ b. b.len ≤ N };
}

impl<const N: usize> Bytes<N> {
    /// No bytes.
    pub fn new() -> Self
        ensures { result.items ≡ [] }
    {
        Bytes {
            bytes: [0; N],
            len: 0,
        }
    }

    /// How many there are.
    pub fn len(&self) -> usize
        ensures count { result ≡ length self.now.items }
        ensures within { result ≤ N }
    {
        self.len
    }

    /// How many more there is room for.
    #[inline(always)]
    pub fn room(&self) -> usize
        ensures { result + length self.now.items ≡ N }
    {
        N - self.len
    }

    /// All of them.
    pub fn as_slice(&self) -> &[u8]
        ensures { result.now ≡ self.now.items }
    {
        &self.bytes[..self.len]
    }

    /// Removes all of them.
    pub fn clear(&mut self)
        ensures { self.new.items ≡ [] }
    {
        self.len = 0;
    }

    /// Adds a byte at the end.
    #[inline(always)]
    pub fn push(&mut self, byte: u8)
        requires { length self.old.items < N }
        ensures { self.new.items ≡ self.old.items ++ byte ∷ [] }
    {
        self.bytes[self.len] = byte;
        self.len += 1;
    }

    /// Removes the last byte, and returns it.
    pub fn pop(&mut self) -> Option<u8>
        ensures items { self.old.items ≡ self.new.items ++ option_to_list result }
        ensures variant { IsSome result ↔ (0 < length self.old.items) }
        ensures room { IsSome result → length self.new.items < N }
    {
        if self.len == 0 {
            return None;
        }
        self.len -= 1;
        Some(self.bytes[self.len])
    }

    /// Adds bytes at the end, if there is room for them. Returns whether there was; if not, nothing
    /// changes.
    #[inline(always)]
    pub fn extend(&mut self, bytes: &[u8]) -> bool
        ensures room { IsTrue result ↔ (length self.old.items + length bytes.now ≤ N) }
        ensures items { MatchBool result (self.new.items ≡ self.old.items ++ bytes.now)
            (self.new.items ≡ self.old.items) }
    {
        if bytes.len() > N - self.len {
            return false;
        }
        let start = self.len;
        let end = start + bytes.len();
        let room: &mut [u8] = &mut self.bytes;
        room[start..end].copy_from_slice(bytes);
        self.len = end;
        true
    }
}
