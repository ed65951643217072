// The worked cases of the rules.
#![tactic(auto)]

ghost use Rattle.worked.specs.Plays.{PlaysOnce};
ghost use Rattle.worked.specs.Table.{Table};

/// Each row of the table follows from the rules.
pub fn table_stands()
    ensures { Table }
{}

/// The replies of a row are the only ones.
pub fn replies_stand()
    ensures { PlaysOnce }
{}
