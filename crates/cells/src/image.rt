// A byte image: four bytes a cell, highest first. Bytes left over at the end are no cell, and stay.
ghost use Rattle.std.specs.Prelude.{◌≡◌, ℕ, [], ◌∷◌, ◌/◌, ◌<◌, length, slice_index, slice_set};
ghost use Rattle.cells.specs.FourBytes.{words_of, spare_of};

use crate::memory::CellMemory;

/// A cell memory over bytes that the caller lends: four bytes a cell, highest first. Up to three bytes that are left over
/// at the end belong to no cell.
#[derive(Drop)]
pub struct Image<'a> {
    /// The bytes.
    pub bytes: &'a mut [u8],
}

impl<'a> Image<'a> {
    // How many cells there are.
    fn count(&self) -> usize
        ensures cells { result ≡ length (words_of self.now.bytes.now) }
        ensures quarter { result ≡ length self.now.bytes.now / 4 }
    {
        self.bytes.len() / 4
    }

    // The cell at `i`.
    fn get(&self, i: usize) -> u32
        requires { i < length self.now.bytes.now / 4 }
        ensures { result ≡ slice_index (words_of self.now.bytes.now) i }
    {
        u32::from_be_bytes([
            self.bytes[4 * i],
            self.bytes[4 * i + 1],
            self.bytes[4 * i + 2],
            self.bytes[4 * i + 3],
        ])
    }

    // Sets the cell at `i`.
    fn put(&mut self, i: usize, v: u32)
        requires { i < length self.old.bytes.now / 4 }
        ensures after { words_of self.new.bytes.now ≡ slice_set (words_of self.old.bytes.now) i v }
        ensures spare { spare_of self.new.bytes.now ≡ spare_of self.old.bytes.now }
        ensures same_reference { self.new.bytes.ghost_name ≡ self.old.bytes.ghost_name }
    {
        let [a, b, c, d] = v.to_be_bytes();
        self.bytes[4 * i] = a;
        self.bytes[4 * i + 1] = b;
        self.bytes[4 * i + 2] = c;
        self.bytes[4 * i + 3] = d;
    }
}

// The proofs do not close over a closure in `then`, and after one that writes they know nothing of the bytes.
impl<'a> CellMemory for Image<'a> {
    ghost cells = { λ s. words_of s.bytes.now };

    ghost spare = { λ s. spare_of s.bytes.now };

    ghost name = { λ s. s.bytes.ghost_name ∷ [] };

    fn len(&self) -> usize {
        self.count()
    }

    fn bounded(&self) {
        each_fits(self.bytes)
    }

    fn read(&mut self, i: usize) -> Option<u32> {
        if i < self.count() {
            Some(self.get(i))
        } else {
            None
        }
    }

    fn write(&mut self, i: usize, v: u32) -> Option<()> {
        if i < self.count() {
            self.put(i, v);
            Some(())
        } else {
            None
        }
    }

    fn swap(&mut self, i: usize, old: u32, new: u32) -> Option<bool> {
        if i >= self.count() {
            return None;
        }
        let found = self.get(i) == old;
        if found {
            self.put(i, new);
        }
        Some(found)
    }

    fn raise(&mut self, i: usize, limit: u32) -> Option<u32> {
        if i >= self.count() {
            return None;
        }
        let was = self.get(i);
        if was < limit {
            self.put(i, was + 1);
            Some(was)
        } else {
            None
        }
    }
}

// Each byte is a number of 8 bits; the words have a bound of their own. A proof learns it only of a slice that is a parameter.
fn each_fits(bytes: &[u8])
    ensures { (i : ℕ) → slice_index bytes.now i < 256 }
{
    let _ = bytes.is_empty();
}
