// The questions over the cells of a page. The crate questions_c exports them for a C program, so their names and
// parameters are those that C has, but for the count, which is in the result.
ghost use Rattle.std.specs.Prelude.{◌≡◌, length};
ghost use Rattle.questions.specs.Measures.{total_scale, weakest_scale};
ghost use Rattle.questions.specs.Pages.{shown};
ghost use Rattle.questions.specs.Unanswered.{Refuses};
ghost use Rattle.questions.specs.Order.{OrderedOr};
ghost use Rattle.questions.specs.Export.{unanswered_on, EntriesOr};

use crate::best_first::best;
use crate::breadth_first::order;
use crate::entry::Entry;
use crate::measure::{Measure, Total, Weakest};
use crate::page::Page;
use crate::unanswered::Unanswered;

/// The question `order` over the cells of a page of `keys` keys. Cells that make no page are refused with `SizeOutside`, before the
/// reasons of `order`; where there is no answer `out` stays as it was.
pub fn questions_order(
    cells: &[u32],
    keys: usize,
    start: usize,
    out: &mut [u8],
) -> Result<usize, Unanswered>
    ensures answer { Refuses (unanswered_on cells.now keys start (length out.old)) result }
    ensures after { OrderedOr result (shown cells.now keys) start out.old out.new }
{
    let page = Page::try_new(cells, keys)?;
    order(&page, start, out)
}

// The question `best` over cells, by any measure.
fn best_of<M: Measure>(
    cells: &[u32],
    keys: usize,
    start: usize,
    out: &mut [Entry],
) -> Result<(), Unanswered>
    ensures answer { Refuses (unanswered_on cells.now keys start (length out.old)) result }
    ensures after { EntriesOr result M.scale cells.now keys start out.old out.new }
{
    let page = Page::try_new(cells, keys)?;
    best::<Page<'_>, M, Entry>(&page, start, out)
}

/// The question `best` by `Total` over the cells of a page of `keys` keys, refused as `questions_order` is.
pub fn questions_total(
    cells: &[u32],
    keys: usize,
    start: usize,
    out: &mut [Entry],
) -> Result<(), Unanswered>
    ensures answer { Refuses (unanswered_on cells.now keys start (length out.old)) result }
    ensures after { EntriesOr result total_scale cells.now keys start out.old out.new }
{
    best_of::<Total>(cells, keys, start, out)
}

/// The question `best` by `Weakest` over the cells of a page of `keys` keys, refused as `questions_order` is.
pub fn questions_weakest(
    cells: &[u32],
    keys: usize,
    start: usize,
    out: &mut [Entry],
) -> Result<(), Unanswered>
    ensures answer { Refuses (unanswered_on cells.now keys start (length out.old)) result }
    ensures after { EntriesOr result weakest_scale cells.now keys start out.old out.new }
{
    best_of::<Weakest>(cells, keys, start, out)
}
