// Facts that stand with no code.
ghost use Rattle.frames.specs.Cases.{Cases};

/// Does nothing: it shows that some lines are read and written as the worked cases say.
pub fn cases_stand()
    ensures { Cases }
{}
