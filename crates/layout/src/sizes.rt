// The sizes of an opening. A set of sizes, once made, is within these limits.
ghost use Rattle.std.specs.Prelude.{◌≤◌};

/// The sizes of a run: 1 to 64 keys, 1 to 8 workers, `vrows` vertex rows (1 to 256) and `erows` edge rows (1 to 2,048) for each
/// worker, and `top`, the greatest clock (1 to 1,000,000,000). A value is always within these limits.
#[derive(Clone, Copy, PartialEq, Eq, Debug)]
pub struct Sizes {
    pub keys: usize,
    pub workers: usize,
    pub vrows: usize,
    pub erows: usize,
    pub top: u32,
    ghost keyed: { (1 ≤ keys) × (keys ≤ 64) },
    ghost staffed: { (1 ≤ workers) × (workers ≤ 8) },
    ghost vrowed: { (1 ≤ vrows) × (vrows ≤ 256) },
    ghost erowed: { (1 ≤ erows) × (erows ≤ 2048) },
    ghost timed: { (1 ≤ top) × (top ≤ 1000000000) },
}
