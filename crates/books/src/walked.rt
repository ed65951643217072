// What follows when a walk has come to its end.
ghost use Rattle.std.specs.Prelude.{◌≡◌};
ghost use Rattle.books.specs.Walked.{outcome, key_walked, start_walked, pair_walked, resolved, walked_of};

use crate::book::Book;
use codes::Answer;
use layout::rows::NO_ROW;
use layout::sizes::Sizes;
use places::place::{Hand, Job, ServedPair, Survey, Walk};
use std::ops::ControlFlow;

/// What is written into the page.
#[derive(Clone, Copy, PartialEq, Eq, Debug)]
pub enum Entry {
    Nothing,
    /// 0 into every cell.
    Clear,
    /// The row of a key.
    Key {
        key: u8,
        row: u32,
    },
    /// The weight of a pair.
    Pair {
        from: u8,
        to: u8,
        weight: u32,
    },
    /// The weight of a pair, and the row of its target, which joins.
    Join {
        from: u8,
        to: u8,
        weight: u32,
        row: u32,
    },
}

/// What a walk at its end leads to: the next walk or the answer, and what is written into the page.
#[derive(Clone, Copy, PartialEq, Eq, Debug)]
pub struct Served {
    pub flow: ControlFlow<Answer, Job>,
    pub entry: Entry,
}

impl Book {
    // A key of a snapshot: its row enters the page, and the next key is walked.
    fn key_walked(&mut self, survey: Survey, sizes: Sizes, key: u8, row: u32) -> Served
        ensures { outcome survey self.new result ≡ key_walked self.old survey sizes.keys key row }
    {
        self.walk(key, row);
        self.join(key);
        let entry = Entry::Key { key, row };
        if key as usize + 1 < sizes.keys {
            return Served {
                flow: ControlFlow::Continue(Job::Key(key + 1)),
                entry,
            };
        }
        Served {
            flow: self.serve(survey, sizes, 0, 0),
            entry,
        }
    }

    // The start of a reach: the first to join.
    fn start_walked(&mut self, survey: Survey, sizes: Sizes, key: u8, row: u32) -> Served
        ensures { outcome survey self.new result ≡ start_walked self.old survey sizes.keys key row }
    {
        if row == NO_ROW {
            return Served {
                flow: ControlFlow::Break(Answer::VertexAbsent),
                entry: Entry::Nothing,
            };
        }
        self.walk(key, row);
        self.join(key);
        Served {
            flow: self.serve(survey, sizes, 0, 0),
            entry: Entry::Key { key, row },
        }
    }

    // The target of a visible edge row has had its walk: the edge is there if its target row is the visible one.
    fn resolve(&mut self, survey: Survey, sizes: Sizes, pair: ServedPair, hand: Hand) -> Served
        ensures { outcome survey self.new result ≡ resolved self.old survey sizes.keys pair hand }
    {
        let row = self.row(pair.to);
        let entry = match survey {
            _ if hand.target != row => Entry::Nothing,
            Survey::Reach(_) if self.key(pair.to) == NO_ROW => {
                self.join(pair.to);
                Entry::Join {
                    from: pair.from,
                    to: pair.to,
                    weight: hand.weight,
                    row,
                }
            }
            _ => Entry::Pair {
                from: pair.from,
                to: pair.to,
                weight: hand.weight,
            },
        };
        Served {
            flow: self.serve_after(survey, sizes, pair),
            entry,
        }
    }

    // A pair: a visible row of the served key's row leads to its target, which is walked once.
    fn pair_walked(
        &mut self,
        survey: Survey,
        sizes: Sizes,
        pair: ServedPair,
        row: u32,
        hand: Hand,
    ) -> Served
        ensures { outcome survey self.new result ≡ pair_walked self.old survey sizes.keys pair row hand }
    {
        if row == NO_ROW || hand.source != self.key(pair.from) {
            return Served {
                flow: self.serve_after(survey, sizes, pair),
                entry: Entry::Nothing,
            };
        }
        if self.is_seen(pair.to) {
            return self.resolve(survey, sizes, pair, hand);
        }
        Served {
            flow: ControlFlow::Continue(Job::Target(pair, row)),
            entry: Entry::Nothing,
        }
    }

    /// What follows when a walk has come to its end, in a run of these sizes. `row` is the row that it found visible, or 0, and `hand`
    /// holds what never changes of the edge row that the walk is about. One arm for each clause of `walked_at`, so a match.
    pub fn walked(&mut self, walk: Walk, sizes: Sizes, row: u32, hand: Hand) -> Served
        ensures { outcome walk.survey self.new result ≡ walked_of self.old walk sizes.keys row hand }
    {
        match walk.job {
            Job::Key(key) => self.key_walked(walk.survey, sizes, key, row),
            Job::Start(key) => self.start_walked(walk.survey, sizes, key, row),
            Job::Pair(pair) => self.pair_walked(walk.survey, sizes, pair, row, hand),
            Job::Target(pair, _) => {
                self.walk(pair.to, row);
                self.resolve(walk.survey, sizes, pair, hand)
            }
        }
    }
}
