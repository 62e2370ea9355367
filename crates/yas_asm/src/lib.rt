//! The assembler of Y86-64: from assembly text to a listing of its lines with their addresses and bytes.
#![tactic(auto)]

mod address;
mod assembler;
mod bytes;
mod check;
mod comment;
mod fault;
mod grammar;
mod labels;
mod listing;
mod name;
mod number;
mod passes;
mod reader;
mod statement;
mod tables;
mod used;

pub use assembler::assemble;
pub use fault::{AsmFault, AsmWhy};
pub use grammar::{mnemonic, read_line};
pub use listing::{Line, Listing};
pub use name::Name;
pub use number::number_at;
pub use reader::{Reader, is_name_start};
pub use statement::{Directive, Operand, Operation, Parsed, Shape, Statement, Width};
pub use tables::{directives, mnemonics};
