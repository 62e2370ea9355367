//! The Y86-64 instruction set of CS:APP 3e, section 4.1: the instruction table as data, one step of a machine
//! through the intermediate values of section 4.3.1, and the ALU and conditions that all datapaths share.
#![tactic(auto)]

mod advance;
mod columns;
mod encoding;
mod fetch;
mod laws;
mod machine;
mod row_tests;
mod stages;
mod table;
mod unit;
mod work;

pub use advance::{do_step, step};
pub use columns::{AluAColumn, AluBColumn, MemoryColumn, NextPcColumn, RegisterColumn, Row};
pub use encoding::{Instr, encode, valid};
pub use fetch::{Fetched, Reading, behind, constant_at, read, register_fields, split};
pub use laws::{
    law_of_columns, law_of_encoding, law_of_images, law_of_machines, law_of_normal_form,
    law_of_reading, law_of_records, law_of_rows, law_of_runs, law_of_stack, law_of_steps,
    law_of_work,
};
pub use machine::{Machine, Rec, Store};
pub use row_tests::{
    accesses, address_is_val_a, has_operand_a, is_field_b, is_load, is_store, next_is_branch,
    next_is_val_m, select_a_is_val_a, select_a_is_val_p, stores_val_a, stores_val_p,
};
pub use stages::{data_error, data_read, data_store, put_store, write_back};
pub use table::{icode_count, row};
pub use unit::{AluOut, alu, cond};
pub use work::Work;
