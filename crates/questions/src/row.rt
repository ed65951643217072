// The entries of a key's row.
ghost use Rattle.std.specs.Prelude.{◌≡◌, ◌-◌};
ghost use Rattle.std.specs.Iterator.{at_most};
ghost use Rattle.questions.specs.Rows.{NextEntry};

use crate::view::GraphView;

/// Goes over the row of a key: each key of the page, rising, with the weight of the edge to it, or `None` where there is no edge.
#[derive(Drop)]
pub struct Row<'a, G> {
    page: &'a G,
    key: usize,
    next: usize,
    end: usize,
}

impl<'a, G: GraphView> Row<'a, G> {
    /// The row of the key `key`, from its first entry on; a key that is not shown has no edge in its row.
    pub fn new(page: &'a G, key: usize) -> Row<'a, G>
        ensures page { result.page.now ≡ page.now }
        ensures key { result.key ≡ key }
        ensures first { result.next ≡ 0 }
        ensures end { result.end ≡ G.keys page.now }
    {
        Row {
            page,
            key,
            next: 0,
            end: page.len(),
        }
    }
}

impl<'a, G: GraphView> Iterator for Row<'a, G> {
    type Item = (usize, Option<u32>);

    ghost next_gives = { λ row entry after. NextEntry (G.graph row.page.now) row.key row.end row.next entry after.next
        × (after.page ≡ row.page)
        × (after.key ≡ row.key)
        × (after.end ≡ row.end) };

    ghost remaining = { λ row. at_most (row.end - row.next) };

    fn next(&mut self) -> Option<(usize, Option<u32>)> {
        if self.next >= self.end {
            return None;
        }
        let j = self.next;
        self.next += 1;
        Some((j, self.page.weight(self.key, j)))
    }
}
