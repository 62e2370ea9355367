//! Tests of internal functions of the HCL crates: the trees of a text, the values of terms on both evaluators, orders,
//! and the nodes of a definition.
#![tactic(auto)]

#[cfg(test)]
mod orders;
#[cfg(test)]
mod trees;
#[cfg(test)]
mod values;
