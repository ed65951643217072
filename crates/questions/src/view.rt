// What a question reads of a page.
ghost use Rattle.std.specs.Prelude.{◌≡◌, ℕ, ◌≤◌};
ghost use Rattle.questions.specs.Graph.{Graph, Inside, JoinsShown};

/// Keys and the edges between them, which can be asked one by one. A key is a number below `len`; every number may be asked for.
/// A view owes the law that an edge joins two keys that it shows, so no walk leads through a hidden key.
pub trait GraphView {
    ghost keys: { Self → ℕ };

    ghost graph: { Self → Graph };

    /// How many keys there are, at most 64. Every edge joins two of them.
    fn len(&self) -> usize
        ensures same { result ≡ keys self.now }
        ensures few { result ≤ 64 }
        ensures inside { Inside (graph self.now) result };

    /// Whether the key is shown; a key of `len` or more is not.
    fn shows(&self, k: usize) -> bool
        ensures { result ≡ (graph self.now).has k };

    /// The weight of the edge from `i` to `j`, or `None` where there is no edge.
    fn weight(&self, i: usize, j: usize) -> Option<u32>
        ensures { result ≡ (graph self.now).edge i j };

    ghost joins_shown: { (view : Self) → JoinsShown (graph view) };
}
