// The keys of the calls of a run, and from them one order.
#![tactic(auto)]

ghost use Rattle.keys.specs.Marking.{RunsHaveOrder};
ghost use Rattle.keys.specs.Standing.{AnswersStand, ChangesStand};

/// Every answered call on vertices or edges has a key at which it finds its answer.
pub fn answers_stand()
    ensures { AnswersStand }
{}

/// So has every unfinished one whose change bears its stamp.
pub fn changes_stand()
    ensures { ChangesStand }
{}

/// So one order explains them.
pub fn runs_have_one_order()
    ensures { RunsHaveOrder }
{}
