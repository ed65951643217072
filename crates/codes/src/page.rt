// The cell of a pair of keys on a page.
ghost use Rattle.std.specs.Prelude.{◌≡◌};
ghost use Rattle.codes.specs.Page.{weight_of};

/// The number that stands for no edge in the cell of a pair.
pub const NO_EDGE: u32 = 0;

/// The weight in the cell of a pair, or `None` where the cell stands for no edge. Takes every number.
pub fn weight_of(cell: u32) -> Option<u32>
    ensures { result ≡ weight_of cell }
{
    (cell != NO_EDGE).then_some(cell)
}
