// The caller's 32-bit words, a cell each.
ghost use Rattle.std.specs.Prelude.{ℕ, [], ◌∷◌, ◌^◌, ◌<◌, slice_index};

use crate::memory::CellMemory;

/// A cell memory over words that the caller lends: a word a cell, in order.
#[derive(Drop)]
pub struct Words<'a> {
    /// The words.
    pub words: &'a mut [u32],
}

// After `get` or `get_mut` on what is behind a `&mut` a proof does not know the words, so each operation tests the length.
impl<'a> CellMemory for Words<'a> {
    ghost cells = { λ s. s.words.now };

    ghost name = { λ s. s.words.ghost_name ∷ [] };

    fn len(&self) -> usize {
        self.words.len()
    }

    fn bounded(&self) {
        each_fits(self.words)
    }

    fn read(&mut self, i: usize) -> Option<u32> {
        if i < self.words.len() {
            Some(self.words[i])
        } else {
            None
        }
    }

    fn write(&mut self, i: usize, v: u32) -> Option<()> {
        if i < self.words.len() {
            self.words[i] = v;
            Some(())
        } else {
            None
        }
    }

    fn swap(&mut self, i: usize, old: u32, new: u32) -> Option<bool> {
        if i >= self.words.len() {
            return None;
        }
        let found = self.words[i] == old;
        if found {
            self.words[i] = new;
        }
        Some(found)
    }

    fn raise(&mut self, i: usize, limit: u32) -> Option<u32> {
        if i >= self.words.len() {
            return None;
        }
        let was = self.words[i];
        if was < limit {
            self.words[i] = was + 1;
            Some(was)
        } else {
            None
        }
    }
}

// Each word is a number of 32 bits; the bytes have a bound of their own. A proof learns it only of a slice that is a parameter.
fn each_fits(words: &[u32])
    ensures { (i : ℕ) → slice_index words.now i < 2 ^ 32 }
{
    let _ = words.is_empty();
}
