//! That the film of every number can be rehearsed, as a law over the definitions.
#![tactic(auto)]

ghost use Rattle.rehearsal_laws.specs.Listed.{EveryNumberIsListed};

/// No number's film is refused: whichever movie of the number stands beside its mapping, the media playlist of the film has rows.
pub fn every_number_is_listed()
    ensures { EveryNumberIsListed }
{}
