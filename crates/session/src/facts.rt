// Facts that stand with no code.
ghost use Rattle.session.specs.Laws.{GivenBack, RepliesOnce};

/// Does nothing: it shows that a page which is taken and given back leaves the run as it was.
pub fn given_back()
    ensures { GivenBack }
{}

/// Does nothing: it shows that a frame, or a line that is none, has one reply and leads to one session.
pub fn replied_once()
    ensures { RepliesOnce }
{}
