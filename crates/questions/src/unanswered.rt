// Why a question is not answered, and the byte of each reason.
ghost use Rattle.std.specs.Prelude.{◌≡◌, Some};
ghost use Rattle.questions.specs.declared.unanswered.Unanswered.TheVariants.{Refused};
ghost use Rattle.questions.specs.Unanswered.{unanswered_code, unanswered, words, Refuses};

use crate::view::GraphView;
use codes::{Answer, Refusal};
use std::fmt;

/// Why a question is not answered. It prints its reason in words, and `u8::from` gives its byte.
// An absent start is a reason of its own, so no Option of a refusal.
#[derive(Clone, Copy, PartialEq, Eq, Debug)]
pub enum Unanswered {
    /// The cells make no page (`SizeOutside`), the start is not below the number of keys (`KeyOutside`), or the area has fewer entries
    /// than the page has keys (`AreaTooSmall`).
    Refused(Refusal),
    /// The page does not show the start.
    Absent,
}

impl From<Refusal> for Unanswered {
    ghost from_gives = { λ refusal made. made ≡ Refused refusal };

    fn from(refusal: Refusal) -> Unanswered {
        Self::Refused(refusal)
    }
}

impl From<Unanswered> for u8 {
    ghost from_gives = { λ why made. made ≡ unanswered_code why };

    fn from(why: Unanswered) -> u8 {
        match why {
            Unanswered::Refused(refusal) => refusal.into(),
            Unanswered::Absent => Answer::VertexAbsent.into(),
        }
    }
}

impl fmt::Display for Unanswered {
    ghost output = { λ why. Some (words why) };

    fn fmt<W: fmt::Write>(&self, f: &mut fmt::Formatter<W>) -> fmt::Result {
        f.write_str(match self {
            Unanswered::Absent => "the page does not show the start",
            Unanswered::Refused(Refusal::SizeOutside) => "the cells make no page",
            Unanswered::Refused(Refusal::KeyOutside) => "the start is not below the number of keys",
            Unanswered::Refused(Refusal::AreaTooSmall) => "the area is too small",
            Unanswered::Refused(_) => "the question is refused",
        })
    }
}

/// Whether a question from `start`, with an area of so many entries, can be answered, or the first reason why not.
// The page is lent and the start is a number: a struct of both would be made anew for each call.
pub fn asked<G: GraphView>(page: &G, start: usize, area: usize) -> Result<(), Unanswered>
    ensures { Refuses (unanswered (G.keys page.now) (G.graph page.now) start area) result }
{
    let n = page.len();
    if start >= n {
        return Err(Refusal::KeyOutside.into());
    }
    if area < n {
        return Err(Refusal::AreaTooSmall.into());
    }
    if !page.shows(start) {
        return Err(Unanswered::Absent);
    }
    Ok(())
}
