// A cell memory: a list of cells of fixed length, each a number of 32 bits.
ghost use Rattle.std.specs.Prelude.{◌≡◌, ℕ, ◌^◌, ◌<◌, List, [], length, slice_index, slice_set};
ghost use Rattle.cells.specs.Cells.{within, read_of, swap_of, swapped, raise_of, raised};

/// A list of cells of fixed length, counted from 0. A cell holds a number from 0 to 4,294,967,295. Each operation on a cell
/// past the end answers none, and nothing else is refused. Only the named cell changes; a no and a none change nothing.
pub trait CellMemory {
    ghost cells: { Self → List ℕ };

    // What the memory holds beside its cells, as bytes that make no whole cell.
    ghost spare: { Self → List ℕ } = { λ _. [] };

    // Which memory it is: the names of the loans that it is held by, the outermost first, so that each lender knows what it
    // holds afterwards. A memory that owns its cells has none.
    ghost name: { Self → List ℕ } = { λ _. [] };

    /// How many cells there are.
    fn len(&self) -> usize
        ensures { result ≡ length (cells self.now) };

    /// Does nothing: it shows a proof that each cell is a number of 32 bits.
    fn bounded(&self)
        ensures { (i : ℕ) → slice_index (cells self.now) i < 2 ^ 32 };

    /// The number in cell `i`. It takes `&mut self` since a read may work a device; it changes nothing.
    fn read(&mut self, i: usize) -> Option<u32>
        ensures answer { result ≡ read_of (cells self.old) i }
        ensures after { cells self.new ≡ cells self.old }
        ensures spare { spare self.new ≡ spare self.old }
        ensures name { name self.new ≡ name self.old };

    /// Sets cell `i` to `v`.
    fn write(&mut self, i: usize, v: u32) -> Option<()>
        ensures answer { result ≡ within (cells self.old) i tt }
        ensures after { cells self.new ≡ slice_set (cells self.old) i v }
        ensures spare { spare self.new ≡ spare self.old }
        ensures name { name self.new ≡ name self.old };

    /// Sets cell `i` to `new` if it holds `old`, and says whether it held it.
    fn swap(&mut self, i: usize, old: u32, new: u32) -> Option<bool>
        ensures answer { result ≡ swap_of (cells self.old) i old }
        ensures after { cells self.new ≡ swapped (cells self.old) i old new }
        ensures spare { spare self.new ≡ spare self.old }
        ensures name { name self.new ≡ name self.old };

    /// Adds one to cell `i` if it is below `limit`, and answers the number that it held before; else none.
    fn raise(&mut self, i: usize, limit: u32) -> Option<u32>
        ensures answer { result ≡ raise_of (cells self.old) i limit }
        ensures after { cells self.new ≡ raised (cells self.old) i limit }
        ensures spare { spare self.new ≡ spare self.old }
        ensures name { name self.new ≡ name self.old };
}
