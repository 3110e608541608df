//! Tests of the other commands through `run`: connections one after another and in turns, packagings, rehearsals, and ends of
//! runs.
#![tactic(auto)]

#[cfg(test)]
mod connections;
#[cfg(test)]
mod ends;
#[cfg(test)]
mod long_lists;
#[cfg(test)]
mod packs;
#[cfg(test)]
mod rehearsals;
#[cfg(test)]
mod turns;
