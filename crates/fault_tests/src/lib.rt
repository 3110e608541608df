//! Tests of faults and limits: damaged films, files that are none or change, calls of the store that fail, and a film of very many samples.
#![tactic(auto)]

#[cfg(test)]
mod damages;
#[cfg(test)]
mod fields;
#[cfg(test)]
mod long_films;
#[cfg(test)]
mod lying_files;
