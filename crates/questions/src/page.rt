// A page of cells: one for each key, then one for each pair of keys.
ghost use Rattle.std.specs.Prelude.{◌≡◌, ◌+◌, ◌*◌, ◌≤◌, length, is_ok, IfOk, IfErr};
ghost use Rattle.codes.specs.declared.refusal.Refusal.TheVariants.{SizeOutside};
ghost use Rattle.questions.specs.Pages.{fits, keys_of, shown};
ghost use Rattle.std.proofs.Common.{rules};

use crate::view::GraphView;
use codes::{Refusal, weight_of};

/// A page of 1 to 64 keys over its cells, or a page with no keys. Cell k is 0 where key k is not shown; the cell of the pair (i, j)
/// stands at N + N × i + j and holds a weight or `NO_EDGE`. An edge counts only where both its keys are shown.
#[derive(Drop)]
pub struct Page<'a> {
    cells: &'a [u32],
    keys: usize,
    ghost ok: { (keys ≤ 64) × (keys + keys * keys ≤ length cells.now) },
}

impl<'a> Page<'a> {
    /// A page of `keys` keys. Cells that make no page give a page with no keys, for callers with no refusal to pass on.
    pub fn new(cells: &'a [u32], keys: usize) -> Page<'a>
        ensures cells { result.cells.now ≡ cells.now }
        ensures keys { result.keys ≡ keys_of cells.now keys }
    {
        Page::try_new(cells, keys).unwrap_or(Page { cells, keys: 0 })
    }

    /// A page of `keys` keys, from 1 to 64, over exactly keys + keys × keys cells; other cells are refused with `SizeOutside`.
    pub fn try_new(cells: &'a [u32], keys: usize) -> Result<Page<'a>, Refusal>
        ensures fits { is_ok result ≡ fits cells.now keys }
        ensures page { IfOk result (λ page. (page.cells.now ≡ cells.now) × (page.keys ≡ keys)) }
        ensures refusal { IfErr result (λ why. why ≡ SizeOutside) }
    {
        if (1..=64).contains(&keys) && cells.len() == keys + keys * keys {
            Ok(Page { cells, keys })
        } else {
            Err(Refusal::SizeOutside)
        }
    }
}

impl<'a> GraphView for Page<'a> {
    ghost keys = { λ p. p.keys };

    ghost graph = { λ p. shown p.cells.now p.keys };

    fn len(&self) -> usize {
        self.keys
    }

    fn shows(&self, k: usize) -> bool {
        k < self.keys && self.cells[k] != 0
    }

    fn weight(&self, i: usize, j: usize) -> Option<u32> {
        if self.shows(i) && self.shows(j) {
            weight_of(self.cells[self.keys + self.keys * i + j])
        } else {
            None
        }
    }

    ghost joins_shown = { Prim.search rules };
}
