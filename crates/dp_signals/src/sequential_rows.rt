//! The rows that the signals of a sequential datapath have in its table.
use crate::seq_row;
use hcl_types::NameId;

/// The rows of the signals that all sequential datapaths have.
#[derive(Clone, Copy)]
pub struct SignalRows {
    pub pc: NameId,
    pub imem_icode: NameId,
    pub imem_ifun: NameId,
    pub imem_error: NameId,
    pub r_a: NameId,
    pub r_b: NameId,
    pub val_c: NameId,
    pub val_p: NameId,
    pub val_a: NameId,
    pub val_b: NameId,
    pub val_e: NameId,
    pub cnd: NameId,
    pub val_m: NameId,
    pub dmem_error: NameId,
    pub icode: NameId,
    pub ifun: NameId,
    pub instr_valid: NameId,
    pub need_regids: NameId,
    pub need_val_c: NameId,
    pub src_a: NameId,
    pub src_b: NameId,
    pub dst_e: NameId,
    pub dst_m: NameId,
    pub alu_a: NameId,
    pub alu_b: NameId,
    pub alufun: NameId,
    pub set_cc: NameId,
    pub mem_addr: NameId,
    pub mem_read: NameId,
    pub mem_write: NameId,
    pub mem_data: NameId,
    pub stat: NameId,
}

/// The rows of a table in which `pc` has a row of its own, the hardware's rows follow one another from `hardware` on,
/// and the defined rows of the instruction's control follow one another from `control` on.
#[macro_export]
macro_rules! signal_rows {
    ($pc:expr, $hardware:expr, $control:expr) => {
        $crate::SignalRows {
            pc: $pc,
            imem_icode: $hardware + 0,
            imem_ifun: $hardware + 1,
            imem_error: $hardware + 2,
            r_a: $hardware + 3,
            r_b: $hardware + 4,
            val_c: $hardware + 5,
            val_p: $hardware + 6,
            val_a: $hardware + 7,
            val_b: $hardware + 8,
            val_e: $hardware + 9,
            cnd: $hardware + 10,
            val_m: $hardware + 11,
            dmem_error: $hardware + 12,
            icode: $control + 0,
            ifun: $control + 1,
            instr_valid: $control + 2,
            need_regids: $control + 3,
            need_val_c: $control + 4,
            src_a: $control + 5,
            src_b: $control + 6,
            dst_e: $control + 7,
            dst_m: $control + 8,
            alu_a: $control + 9,
            alu_b: $control + 10,
            alufun: $control + 11,
            set_cc: $control + 12,
            mem_addr: $control + 13,
            mem_read: $control + 14,
            mem_write: $control + 15,
            mem_data: $control + 16,
            stat: $control + 17,
        }
    };
}

/// The rows of SEQ.
pub const SEQ: SignalRows = signal_rows!(seq_row::PC, seq_row::HARDWARE, seq_row::DEFINED);
