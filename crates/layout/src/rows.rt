// Whose rows are whose.
ghost use Rattle.std.specs.Prelude.{◌≡◌, ◌<◌};
ghost use Rattle.layout.specs.Rows.{rows_each, row_at};

use crate::names::Kind;
use crate::sizes::Sizes;

/// The number of no row, in the cells and wherever a row is named.
pub const NO_ROW: u32 = 0;

impl Sizes {
    /// How many rows of a kind each worker owns.
    pub fn rows_each(&self, kind: Kind) -> usize
        ensures { result ≡ rows_each self.now kind }
    {
        match kind {
            Kind::Vertex => self.vrows,
            Kind::Edge => self.erows,
        }
    }

    /// Row `n` of worker `w`, counted from 0 among its own; none where the worker owns no such row, or is none of the run.
    pub fn row_at(&self, kind: Kind, w: u8, n: u32) -> Option<u32>
        ensures { result ≡ row_at self.now kind w n }
    {
        if (w as usize) < self.workers && (n as usize) < self.rows_each(kind) {
            Some((w as usize * self.rows_each(kind)) as u32 + n + 1)
        } else {
            None
        }
    }
}
