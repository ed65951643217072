// A page that is drawn.
ghost use Rattle.std.specs.Prelude.{◌≡◌, true};
ghost use Rattle.questions.specs.Pages.{fits};

/// A page: how many keys it has, 1 to 64, and its cells.
#[derive(Drop)]
pub struct Drawn {
    pub keys: usize,
    pub cells: Vec<u32>,
    ghost whole: { fits cells.items keys ≡ true },
}
