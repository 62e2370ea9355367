//! The command `check` of `y86-tell`: the verdict on an HCL file, and what is wrong with a refused file, in sentences or
//! as JSON.
#![tactic(auto)]

mod cases;
mod checking;
mod pipe;
mod sequential;
mod yes;

pub use checking::check;
