// What holds of every layout.
ghost use Rattle.layout.specs.Laws.{LayoutStands};

/// Each name has a needed cell of its own, each needed cell has a name, and each row has one owner.
pub fn layout_stands()
    ensures { LayoutStands }
{}
