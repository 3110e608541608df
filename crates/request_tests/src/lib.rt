//! Tests of requests through `run`: rows of words and what they are answered, whole bodies, and plans.
#![tactic(auto)]

#[cfg(test)]
mod bodies;
#[cfg(test)]
mod plans;
#[cfg(test)]
mod rows;
