// Measures: values of 32 bits, a start, an extension by a weight and an order.
ghost use Rattle.std.specs.Prelude.{◌≡◌};
ghost use Rattle.questions.specs.Measures.{Scale, Lawful, total_scale, weakest_scale};
ghost use Rattle.std.proofs.Common.{rules};

/// A measure of walks: a start value, its extension by the weight of one more edge, and which of two values is better. It owes the
/// laws of `Lawful`.
pub trait Measure {
    ghost scale: { Scale };

    /// The value of the walk with no edges.
    fn first() -> u32
        ensures { result ≡ scale.first };

    /// The value of a walk with one more edge, of this weight.
    fn extend(value: u32, weight: u32) -> u32
        ensures { result ≡ scale.extend value weight };

    /// Whether `a` is better than `b`.
    fn better(a: u32, b: u32) -> bool
        ensures { result ≡ scale.better a b };

    ghost lawful: { Lawful scale };
}

/// The sum of the weights, up to 4,294,967,295; less is better.
pub struct Total;

impl Measure for Total {
    ghost scale = { total_scale };

    ghost lawful = { Prim.search rules };

    fn first() -> u32 {
        0
    }

    fn extend(value: u32, weight: u32) -> u32 {
        value.saturating_add(weight)
    }

    fn better(a: u32, b: u32) -> bool {
        a < b
    }
}

/// The least weight; more is better.
pub struct Weakest;

impl Measure for Weakest {
    ghost scale = { weakest_scale };

    ghost lawful = { Prim.search rules };

    fn first() -> u32 {
        4_294_967_295
    }

    fn extend(value: u32, weight: u32) -> u32 {
        value.min(weight)
    }

    fn better(a: u32, b: u32) -> bool {
        a > b
    }
}
