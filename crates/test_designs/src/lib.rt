//! The designs of `examples/`, without blank lines and later comments, and with changes, for the tests of other crates.
#![tactic(auto)]

mod changes;
mod files;

pub use files::Example;
