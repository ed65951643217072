// The keys that a snapshot or reach has walked, with the row then visible, and the keys to serve, in the order in which they joined.
ghost use Rattle.std.specs.Prelude.{◌≡◌, slice_index};
ghost use Rattle.books.specs.Books.{blank, shown_of, found_of, row_of, is_seen, with_row, joined};

use layout::rows::NO_ROW;

/// What a book holds of a key: the row that the page shows of it, and the row that its walk found, or None before its walk. A key
/// that has had its walk and did not join is not shown: its `shown` is 0.
#[derive(Clone, Copy, PartialEq, Eq, Debug)]
pub struct KeyState {
    pub shown: u32,
    pub found: Option<u32>,
}

/// What a worker keeps beside its page while it makes one: the number `t` of its raise, what it holds of each key, and the keys to
/// serve in the order in which they joined, the first `len` of `queue`. All have a fixed size, so no heap: a run has 64 keys at most.
#[derive(Clone, Copy, PartialEq, Eq, Debug)]
pub struct Book {
    pub t: u32,
    pub keys: [KeyState; 64],
    pub queue: [u8; 64],
    pub len: u8,
}

impl Book {
    /// The book of a raise that gave t: no key has had its walk, and none joined.
    pub fn blank(t: u32) -> Book
        ensures { result ≡ blank t }
    {
        Book {
            t,
            keys: [KeyState {
                shown: NO_ROW,
                found: None,
            }; 64],
            queue: [0; 64],
            len: 0,
        }
    }

    /// The row that the page shows of a key; 0 if it shows none, and for a key of 64 or more.
    pub fn key(&self, k: u8) -> u32
        ensures { result ≡ shown_of self.now k }
    {
        self.keys.get(k as usize).map_or(NO_ROW, |key| key.shown)
    }

    // What the walk of a key found, or None before its walk.
    fn found(&self, k: u8) -> Option<u32>
        ensures { result ≡ found_of self.now k }
    {
        self.keys.get(k as usize).and_then(|key| key.found)
    }

    /// The visible row that the walk of a key found; 0 if it found none, or has not been.
    pub fn row(&self, k: u8) -> u32
        ensures { result ≡ row_of self.now k }
    {
        self.found(k).unwrap_or(NO_ROW)
    }

    /// Whether a key has had its walk.
    pub fn is_seen(&self, k: u8) -> bool
        ensures { result ≡ is_seen self.now k }
    {
        self.found(k).is_some()
    }

    /// The key that is served n-th, counted from 0, of the first `len`; 0 from 64 on.
    pub fn queued(&self, n: usize) -> u8
        ensures { result ≡ slice_index self.now.queue n }
    {
        self.queue.get(n).copied().unwrap_or(0)
    }

    /// A key has had its walk, which found `row`, or 0 for nothing visible. A key of 64 or more changes nothing.
    pub fn walk(&mut self, k: u8, row: u32)
        ensures { self.new ≡ with_row self.old k row }
    {
        // After a write through `get_mut` a proof knows nothing of the keys.
        if k < 64 {
            self.keys[k as usize].found = Some(row);
        }
    }

    /// A walked key joins: the page shows its row, and it is to be served. Where 64 have joined nothing changes.
    pub fn join(&mut self, k: u8)
        ensures { self.new ≡ joined self.old k }
    {
        if self.len < 64 {
            let row = self.row(k);
            // After a write through `get_mut` a proof knows nothing of the keys.
            if k < 64 {
                self.keys[k as usize].shown = row;
            }
            self.queue[self.len as usize] = k;
            self.len += 1;
        }
    }
}
