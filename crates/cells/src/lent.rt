// A memory that is lent is one too.
ghost use Rattle.std.specs.Prelude.{◌∷◌};

use crate::memory::CellMemory;

// Its cells are those of the memory behind the loan.
impl<'a, M: CellMemory> CellMemory for &'a mut M {
    ghost cells = { λ s. M.cells s.now };

    ghost spare = { λ s. M.spare s.now };

    ghost name = { λ s. s.ghost_name ∷ M.name s.now };

    fn len(&self) -> usize {
        (**self).len()
    }

    fn bounded(&self) {
        (**self).bounded()
    }

    fn read(&mut self, i: usize) -> Option<u32> {
        (**self).read(i)
    }

    fn write(&mut self, i: usize, v: u32) -> Option<()> {
        (**self).write(i, v)
    }

    fn swap(&mut self, i: usize, old: u32, new: u32) -> Option<bool> {
        (**self).swap(i, old, new)
    }

    fn raise(&mut self, i: usize, limit: u32) -> Option<u32> {
        (**self).raise(i, limit)
    }
}
