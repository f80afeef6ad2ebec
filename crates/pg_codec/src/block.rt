//! A fixed array that bytes are gathered in before they are put.

ghost use Rattle.std.specs.Prelude.{◌≡◌, ◌+◌, ◌≤◌, [], ◌∷◌, ◌++◌, length};
ghost use Rattle.std.specs.Int.{w16, w32, w64, to_le_bytes};
ghost use Rattle.pg_event.specs.Spelling.{bit};

use byteorder::{ByteOrder, LittleEndian};
use std::marker::Model;

/// The bytes that a block has room for.
pub(crate) const BLOCK: usize = 4096;

/// Bytes that wait to be put. There is room for 4,096.
#[derive(Drop)]
pub struct Block {
    bytes: [u8; BLOCK],
    len: usize,
}

impl Model for Block {
    ghost use Rattle.std.specs.Prelude.{ℕ, List, ◌≤◌, take};

    ghost Value = { List ℕ };

    ghost view = { λ b. take b.len b.bytes };

    ghost invariant = { λ b. b.len ≤ 4096 };
}

impl Block {
    /// No bytes.
    pub fn new() -> Block
        ensures { result ≡ [] }
    {
        Block {
            bytes: [0; BLOCK],
            len: 0,
        }
    }

    /// How many bytes there are.
    pub fn len(&self) -> usize
        ensures { result ≡ length self.now }
    {
        self.len
    }

    /// The bytes.
    pub fn as_slice(&self) -> &[u8]
        ensures { result.now ≡ self.now }
    {
        &self.bytes[..self.len]
    }

    /// Lets all bytes go.
    pub fn clear(&mut self)
        ensures { self.new ≡ [] }
    {
        self.len = 0;
    }

    pub(crate) fn push_u8(&mut self, byte: u8)
        requires { length self.old + 1 ≤ 4096 }
        ensures { self.new ≡ self.old ++ byte ∷ [] }
    {
        self.bytes[self.len] = byte;
        self.len += 1;
    }

    pub(crate) fn push_bit(&mut self, on: bool)
        requires { length self.old + 1 ≤ 4096 }
        ensures { self.new ≡ self.old ++ bit on ∷ [] }
    {
        self.push_u8(if on { 1 } else { 0 });
    }

    pub(crate) fn push_u16(&mut self, n: u16)
        requires { length self.old + 2 ≤ 4096 }
        ensures { self.new ≡ self.old ++ to_le_bytes w16 n }
    {
        LittleEndian::write_u16(&mut self.bytes[self.len..], n);
        self.len += 2;
    }

    /// A number of four bytes.
    pub fn push_u32(&mut self, n: u32)
        requires { length self.old + 4 ≤ 4096 }
        ensures { self.new ≡ self.old ++ to_le_bytes w32 n }
    {
        LittleEndian::write_u32(&mut self.bytes[self.len..], n);
        self.len += 4;
    }

    pub(crate) fn push_u64(&mut self, n: u64)
        requires { length self.old + 8 ≤ 4096 }
        ensures { self.new ≡ self.old ++ to_le_bytes w64 n }
    {
        LittleEndian::write_u64(&mut self.bytes[self.len..], n);
        self.len += 8;
    }
}
