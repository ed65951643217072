// The cells of a page, copied out of the memory.
ghost use Rattle.std.specs.Prelude.{◌≡◌, ◌+◌, ◌*◌, ◌≤◌, length, take};

use std::marker::Model;

/// A copy of a page: a cell for each key, which is not 0 if the page shows the key, then a cell for each pair of keys (i, j),
/// i rising, then j rising, with the weight of the edge, or 0 for no edge. It has room for the page of 64 keys.
#[derive(Drop)]
pub struct PageCells {
    keys: usize,
    cells: [u32; 4160],
}

impl Model for PageCells {
    ghost use Rattle.std.specs.Prelude.{◌+◌, ◌*◌, ◌≤◌, take};
    ghost use Rattle.machine.specs.Pages.{PageOf};

    ghost Value = { PageOf };

    ghost view = { λ p. record { keys = p.keys; cells = take (p.keys + p.keys * p.keys) p.cells } };

    ghost invariant = { λ p. (1 ≤ p.keys) × (p.keys ≤ 64) };
}

impl PageCells {
    // The first cells are those of a page of so many keys.
    pub(crate) fn new(keys: usize, cells: [u32; 4160]) -> PageCells
        requires { (1 ≤ keys) × (keys ≤ 64) }
        ensures keys { result.keys ≡ keys }
        ensures cells { result.cells ≡ take (keys + keys * keys) cells }
    {
        PageCells { keys, cells }
    }

    /// How many keys it has.
    pub fn keys(&self) -> usize
        ensures answer { result ≡ self.now.keys }
        ensures bound { (1 ≤ result) × (result ≤ 64) }
    {
        self.keys
    }

    /// Its cells: those of the keys, then those of the pairs.
    pub fn as_slice(&self) -> &[u32]
        ensures cells { result.now ≡ self.now.cells }
        ensures len { length result.now ≡ self.now.keys + self.now.keys * self.now.keys }
    {
        &self.cells[..self.keys + self.keys * self.keys]
    }
}
