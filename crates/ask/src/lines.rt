// The lines that draw a page.
ghost use Rattle.std.specs.Prelude.{◌≡◌, ◌≤◌, IfOk, ◌++◌, length, drop};
ghost use Rattle.ask.specs.Sheets.{drawing, bare};
ghost use Rattle.ask.specs.Lines.{texts, shown_keys, keys_line, edge_line, ByWords, Follows};

use crate::drawn::Drawn;
use crate::fault::Fault;
use crate::number::{key_in, number, weight_in};
use codes::NO_EDGE;
use std::alloc::{AllocError, Global};
use std::str::SplitWhitespace;

// Writes cells over the first ones.
fn put_front(cells: &mut [u32], front: &[u32])
    requires { length front.now ≤ length cells.old }
    ensures { cells.new ≡ front.now ++ drop (length front.now) cells.old }
{
    cells[..front.len()].copy_from_slice(front);
}

// Shows the keys that the words name; where a word names no key, the cells are as they were.
fn show_keys(cells: &mut [u32], keys: usize, words: SplitWhitespace) -> Result<(), Fault>
    requires { (keys ≤ 64) × (keys ≤ length cells.old) }
    ensures { ByWords words.entry (λ said. Follows cells.old (shown_keys keys cells.old said) cells.new result) }
{
    let mut before = [0u32; 64];
    put_front(&mut before, &cells[..keys]);
    for word in words {
        let Some(k) = key_in(keys, word) else {
            put_front(cells, &before[..keys]);
            return Err(Fault::Key);
        };
        cells[k] = 1;
    }
    Ok(())
}

impl Drawn {
    /// A page of so many keys, with none shown and no edge.
    pub fn bare(heap: Global, keys: usize) -> Result<Drawn, AllocError>
        requires { (1 ≤ keys) × (keys ≤ 64) }
        ensures { IfOk result (λ drawn. drawing drawn ≡ bare keys) }
    {
        let mut cells = vec![in heap; 0; keys]?;
        cells.resize(keys + keys * keys, NO_EDGE)?;
        Ok(Drawn { keys, cells })
    }

    /// Shows the keys that the words name, or none of them where a word names no key.
    pub fn show(&mut self, words: SplitWhitespace) -> Result<(), Fault>
        ensures { ByWords words.entry (λ said. Follows (drawing self.old) (keys_line (drawing self.old) said) (drawing self.new) result) }
    {
        show_keys(&mut self.cells, self.keys, words)
    }

    /// Draws the edge that the words name.
    pub fn join(&mut self, words: &[&str]) -> Result<(), Fault>
        ensures { Follows (drawing self.old) (edge_line (drawing self.old) (texts words.now)) (drawing self.new) result }
    {
        let [i, j, w] = *words else {
            return Err(Fault::Edge);
        };
        let i = number(i).ok_or(Fault::Key)?;
        let j = number(j).ok_or(Fault::Key)?;
        let weight = weight_in(w).ok_or(Fault::Weight)?;
        if i >= self.keys || j >= self.keys {
            return Err(Fault::Key);
        }
        self.cells[self.keys + self.keys * i + j] = weight;
        Ok(())
    }
}
