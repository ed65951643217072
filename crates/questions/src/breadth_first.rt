// The keys that walks from a key reach, breadth first.
ghost use Rattle.std.specs.Prelude.{◌≡◌, ℕ, ◌+◌, ◌<◌, ◌≤◌, false, length, slice_set};
ghost use Rattle.questions.specs.Search.{flag};
ghost use Rattle.questions.specs.Unanswered.{unanswered, Refuses};
ghost use Rattle.questions.specs.Order.{Ordered, OrderedOr, Listed};

use crate::row::Row;
use crate::unanswered::{Unanswered, asked};
use crate::view::GraphView;

// The keys listed so far, at the front of the caller's area.
#[derive(Drop)]
struct Listing<'a> {
    out: &'a mut [u8],
    count: usize,
}

impl<'a> Listing<'a> {
    // A list of no keys.
    fn new(out: &'a mut [u8]) -> Listing<'a>
        ensures same_reference { result.out.ghost_name ≡ out.entry.ghost_name }
        ensures area { result.out.now ≡ out.old }
        ensures none { result.count ≡ 0 }
    {
        Listing { out, count: 0 }
    }

    // Lists a key.
    fn push(&mut self, j: usize)
        requires { (j < 64) × (self.old.count < length self.old.out.now) }
        ensures same_reference { self.new.out.ghost_name ≡ self.old.out.ghost_name }
        ensures area { self.new.out.now ≡ slice_set self.old.out.now self.old.count j }
        ensures count { self.new.count ≡ self.old.count + 1 }
    {
        self.out[self.count] = j as u8;
        self.count += 1;
    }

    // The key at a place of the list, if so many are listed.
    fn get(&self, at: usize) -> Option<usize>
        requires { self.now.count ≤ length self.now.out.now }
        ensures { Listed self.now.out.now self.now.count at result }
    {
        (at < self.count).then(|| usize::from(self.out[at]))
    }
}

// Serves the listed keys in turn, and lists their neighbours, rising, that are not listed yet.
fn spread<G: GraphView>(page: &G, start: usize, out: &mut [u8], listed: &mut [bool]) -> usize
    requires start_bound { (start < G.keys page.now) × ((G.keys page.now ≤ length out.old) × (G.keys page.now ≡ length listed.old)) }
    requires by_index { (k : ℕ) → flag listed.old k ≡ false }
    ensures { Ordered (G.graph page.now) start result out.old out.new }
{
    // For the loop's invariant: every edge joins keys below `n`.
    let n = page.len();
    let mut listing = Listing::new(out);
    listing.push(start);
    listed[start] = true;
    for served in 0..n {
        let Some(k) = listing.get(served) else { break };
        for (j, weight) in Row::new(page, k) {
            if weight.is_some() && !listed[j] {
                listed[j] = true;
                listing.push(j);
            }
        }
    }
    listing.count
}

/// Writes the keys that walks from `start` reach to the front of `out`, breadth first, the neighbours of a key rising, and answers how
/// many they are. Where there is no answer, as `Unanswered` says, `out` stays as it was.
pub fn order<G: GraphView>(page: &G, start: usize, out: &mut [u8]) -> Result<usize, Unanswered>
    ensures answer { Refuses (unanswered (G.keys page.now) (G.graph page.now) start (length out.old)) result }
    ensures after { OrderedOr result (G.graph page.now) start out.old out.new }
{
    asked(page, start, out.len())?;
    let n = page.len();
    // A page has at most 64 keys: fixed memory, no heap.
    let mut listed = [false; 64];
    Ok(spread(page, start, out, &mut listed[..n]))
}
