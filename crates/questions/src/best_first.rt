// The best values of walks from a key, for every measure.
ghost use Rattle.std.specs.Prelude.{◌≡◌, ℕ, ◌<◌, ◌≤◌, false, length};
ghost use Rattle.questions.specs.Unanswered.{unanswered, Refuses};
ghost use Rattle.questions.specs.Search.{value_at, listed_at, Picked, Relaxed, Written};
ghost use Rattle.questions.specs.Best.{Entered, Answered, AnsweredOr};

use crate::measure::Measure;
use crate::unanswered::{Unanswered, asked};
use crate::view::GraphView;

/// What the search knows of a key: the best value of the walks found so far, and whether the key is listed.
#[derive(Clone, Copy, Default)]
pub struct Label {
    pub value: Option<u32>,
    pub listed: bool,
}

/// The key that has a value, is not listed and has the best value, the lowest of equal ones, and its value.
pub fn pick<M: Measure>(labels: &[Label]) -> Option<(usize, u32)>
    ensures { Picked M.scale (listed_at labels.now) (value_at labels.now) (length labels.now) result }
{
    let mut found = None;
    for (k, label) in labels.iter().enumerate() {
        if let Label {
            value: Some(value),
            listed: false,
        } = *label
        {
            if found.is_none_or(|(_, best)| M::better(value, best)) {
                found = Some((k, value));
            }
        }
    }
    found
}

/// Offers each key that an edge from `k` leads to the value of `k`, extended.
pub fn relax<G: GraphView, M: Measure>(page: &G, k: usize, from: u32, labels: &mut [Label])
    requires { (k < G.keys page.now) × (length labels.old ≡ G.keys page.now) }
    ensures values { Relaxed M.scale (G.graph page.now) from k (G.keys page.now) (value_at labels.old) (value_at labels.new) }
    ensures listed { (j : ℕ) → listed_at labels.new j ≡ listed_at labels.old j }
{
    for (j, label) in labels.iter_mut().enumerate() {
        if let Some(weight) = page.weight(k, j) {
            let value = M::extend(from, weight);
            if label.value.is_none_or(|old| M::better(value, old)) {
                label.value = Some(value);
            }
        }
    }
}

// Sets the first `n` places of `out` to what stands for no value, in any form that is made of an option.
fn write_none<T: From<Option<u32>> + Copy>(out: &mut [T], n: usize)
    requires { n ≤ length out.old }
    ensures { Written T.from_gives (λ k. None) n out.old out.new }
{
    let none = T::from(None);
    for k in 0..n {
        out[k] = none;
    }
}

// Lists keys, the best first, from blank labels on, until no key with a value is left to list. The value of a key is final once the
// key is listed, so it is written to `out` then, and the labels are not gone over once more. The other keys have none there.
// Two callers would keep it from being inlined, and a page that goes through memory costs time, hence the hints here and below.
#[inline(always)]
fn search<G: GraphView, M: Measure, T: From<Option<u32>> + Copy>(
    page: &G,
    start: usize,
    labels: &mut [Label],
    out: &mut [T],
)
    requires start_bound { (start < G.keys page.now) × (length labels.old ≡ G.keys page.now) }
    requires blank { (k : ℕ) → (value_at labels.old k ≡ None) × (listed_at labels.old k ≡ false) }
    requires area { G.keys page.now ≤ length out.old }
    ensures values { (k : ℕ) → k < G.keys page.now → Entered M.scale (G.graph page.now) start k (value_at labels.new k) }
    ensures written { Written T.from_gives (value_at labels.new) (G.keys page.now) out.old out.new }
{
    // For the loop's invariant: every edge joins keys below `n`.
    let n = page.len();
    write_none(out, n);
    labels[start].value = Some(M::first());
    while let Some((k, value)) = pick::<M>(labels) {
        labels[k].listed = true;
        out[k] = T::from(Some(value));
        relax::<G, M>(page, k, value, labels);
    }
}

// Writes the entries of a page of at most `ROOM` keys, with as many labels: fixed memory, no heap.
#[inline(always)]
fn answer<G: GraphView, M: Measure, T: From<Option<u32>> + Copy, const ROOM: usize>(
    page: &G,
    start: usize,
    out: &mut [T],
)
    requires start_bound { start < G.keys page.now }
    requires room { (G.keys page.now ≤ ROOM) × (ROOM ≤ 64) }
    requires area { G.keys page.now ≤ length out.old }
    ensures { Answered T.from_gives M.scale (G.graph page.now) (G.keys page.now) start out.old out.new }
{
    let n = page.len();
    let mut labels = [Label::default(); ROOM];
    search::<G, M, T>(page, start, &mut labels[..n], out);
}

/// Writes the entry of each key, in any form that is made of an option, to the front of `out`: the best value of the walks from
/// `start` to the key, or none where there is no walk. Where there is no answer, as `Unanswered` says, `out` stays as it was.
pub fn best<G: GraphView, M: Measure, T: From<Option<u32>> + Copy>(
    page: &G,
    start: usize,
    out: &mut [T],
) -> Result<(), Unanswered>
    ensures answer { Refuses (unanswered (G.keys page.now) (G.graph page.now) start (length out.old)) result }
    ensures after { AnsweredOr result T.from_gives M.scale (G.graph page.now) (G.keys page.now) start out.old out.new }
{
    asked(page, start, out.len())?;
    // A page has at most 64 keys. On a page of a few, to blank 64 labels would be a good part of the work.
    if page.len() <= 8 {
        answer::<G, M, T, 8>(page, start, out);
    } else {
        answer::<G, M, T, 64>(page, start, out);
    }
    Ok(())
}
