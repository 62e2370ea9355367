//! Memory images: the bytes of a machine's memory, with words read and written in little-endian order.
ghost use Rattle.std.specs.Prelude.{◌≡◌, ◌+◌, ◌≤◌, IfOk, IsErrOf, IsTrue, OnOk, ◌↔◌, length, nat_le, nat_lt, replicate, slice_get, slice_set};
ghost use Rattle.y86_base.specs.Image.{AreBytes, IsSize, put_word, word_at};
ghost use Rattle.y86_base.specs.Image as spec;

use crate::parts::Memory;
use std::alloc::Global;
use std::marker::Model;

/// The bytes of a memory, seen as their list. Its size never changes.
#[derive(Debug, Drop)]
pub struct Image {
    bytes: Vec<u8>,
}

impl Model for Image {
    ghost use Rattle.std.specs.Prelude.{List, ℕ, length};
    ghost use Rattle.y86_base.specs.Image.{IsSize};

    ghost Value = { List ℕ };

    ghost view = { λ image. image.bytes.items };

    ghost invariant = { λ image. IsSize (length image.bytes.items) };
}

/// Why an image couldn't be made: its size isn't permitted, or the allocation failed.
#[derive(Clone, Copy, Debug, PartialEq, Eq)]
pub enum ImageFault {
    Size,
    Memory,
}

/// Whether a size in bytes is permitted for an image: a multiple of 8 from 64 to 1,048,576.
#[tactic(auto, unfolding(crate::specs::Image::is_image_size))]
pub fn is_image_size(size: u64) -> bool
    ensures test { result ≡ spec.is_image_size size }
    ensures legal { IsTrue result ↔ IsSize size }
{
    Image::LEAST <= size && size <= Image::MOST && size % 8 == 0
}

impl Image {
    /// The smallest permitted size in bytes; `MOST` is the largest.
    pub const LEAST: u64 = 64;

    pub const MOST: u64 = 1_048_576;

    /// An image of `size` bytes, all 0.
    pub fn new(alloc: Global, size: u64) -> Result<Image, ImageFault>
        ensures zeros { IfOk result (λ image. image ≡ replicate size 0) }
        ensures sized { OnOk result (IsSize size) }
        ensures size_only_where_bad { IsErrOf result ImageFault.Size → IsSize size → ⊥ }
        ensures memory_only_where_good { IsErrOf result ImageFault.Memory → IsSize size }
    {
        if !is_image_size(size) {
            return Err(ImageFault::Size);
        }
        match vec![in alloc; 0; size as usize] {
            Ok(bytes) => Ok(Image { bytes }),
            Err(_) => Err(ImageFault::Memory),
        }
    }

    /// The size in bytes. The call is free at run time; its contract states what holds for every image.
    pub fn size(&self) -> u64
        ensures size { result ≡ length self.now }
        ensures legal { IsSize result }
        ensures bytes { AreBytes self.now }
    {
        let bytes = self.bytes.as_slice();
        bytes.len() as u64
    }

    pub fn byte(&self, address: u64) -> Option<u8>
        ensures { result ≡ slice_get self.now address }
    {
        self.bytes.get(address as usize).copied()
    }

    /// Whether the 8 bytes from an address on are inside.
    fn is_word_inside(&self, address: u64) -> bool
        ensures { result ≡ nat_le (address + 8) (length self.now) }
    {
        let size = self.bytes.len() as u64;
        address <= size && size - address >= 8
    }

    /// The word whose first byte is at `address`, little-endian.
    #[tactic(auto, unfolding(crate::specs::Image::word_at))]
    pub fn word(&self, address: u64) -> Option<u64>
        ensures { result ≡ word_at self.now address }
    {
        if !self.is_word_inside(address) {
            return None;
        }
        let at = address as usize;
        let bytes = &self.bytes[at..at + 8];
        Some(u64::from_le_bytes([
            bytes[0], bytes[1], bytes[2], bytes[3], bytes[4], bytes[5], bytes[6], bytes[7],
        ]))
    }

    /// Writes a word, little-endian, and returns whether all its bytes are inside. Otherwise it writes nothing.
    #[tactic(auto, unfolding(crate::specs::Image::put_word))]
    pub fn put(&mut self, address: u64, word: u64) -> bool
        ensures inside { result ≡ nat_le (address + 8) (length self.old) }
        ensures written { self.new ≡ put_word self.old address word }
    {
        if !self.is_word_inside(address) {
            return false;
        }
        let at = address as usize;
        let bytes = &mut self.bytes[at..at + 8];
        bytes.copy_from_slice(&word.to_le_bytes());
        true
    }

    /// Writes a byte, and returns whether it is inside.
    pub fn put_byte(&mut self, address: u64, byte: u8) -> bool
        ensures inside { result ≡ nat_lt address (length self.old) }
        ensures written { self.new ≡ slice_set self.old address byte }
    {
        match self.bytes.get_mut(address as usize) {
            Some(place) => {
                *place = byte;
                true
            }
            None => false,
        }
    }

    /// A copy in memory of its own.
    pub fn copy(&self, alloc: Global) -> Result<Image, Memory>
        ensures { IfOk result (λ image. image ≡ self.now) }
    {
        match Vec::from_slice(alloc, self.bytes.as_slice()) {
            Ok(bytes) => Ok(Image { bytes }),
            Err(_) => Err(Memory),
        }
    }
}
