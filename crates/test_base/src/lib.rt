//! Tests of the base: memory images and numbers, the outside world, instructions, runs and their reports.
#![tactic(auto)]

#[cfg(test)]
mod base;
#[cfg(test)]
mod instructions;
#[cfg(test)]
mod outside;
#[cfg(test)]
mod runs;
