//! Tests of control valuations: the comparisons that a design makes, the gates of its terms, the lines that are
//! allowed, and what the stages may hold.
#![tactic(auto)]

#[cfg(test)]
mod atoms;
#[cfg(test)]
mod flows;
#[cfg(test)]
mod terms;
#[cfg(test)]
mod valuations;
