//! Runs the book's datapaths on the evaluator that walks the terms.
ghost use Rattle.std.specs.Prelude.{◌≡◌, ◌<◌, ◌^◌};

use dp_signals::{law_of_tables, pipe_table, seq_table};
use hcl_binding::bind;
use hcl_order::order;
use hcl_read::read;
use hcl_types::{OrderedDesign, Plain};
use pipe_path::Pipe;
use retire_trace::drive;
use seq_path::{Seq, run};
use std::alloc::{AllocError, Global};
use test_designs::Example;
use wb_io::SureSink;
use y86_base::{Image, Variant};

/// irmovq $1,%rcx; irmovq $0x1000,%rdx; then rmmovq %rcx,(%rdx), mrmovq (%rdx),%rbx, addq %rcx,%rax and a jump back to the first of them
static LOOP: [u8; 51] = [
    0x30, 0xf1, 1, 0, 0, 0, 0, 0, 0, 0, 0x30, 0xf2, 0, 0x10, 0, 0, 0, 0, 0, 0, 0x40, 0x12, 0, 0, 0,
    0, 0, 0, 0, 0, 0x50, 0x32, 0, 0, 0, 0, 0, 0, 0, 0, 0x60, 0x10, 0x70, 0x14, 0, 0, 0, 0, 0, 0, 0,
];

/// An image of 8192 bytes that begins with the loop.
fn image(alloc: Global) -> Option<Image> {
    let Ok(mut mem) = Image::new(alloc, 8192) else {
        return None;
    };
    let mut address = 0u64;
    for byte in &LOOP {
        let _ = mem.put_byte(address, *byte);
        address = address.wrapping_add(1);
    }
    Some(mem)
}

/// The number of records that retire on PIPE in this number of cycles.
fn on_pipe(alloc: Global, cycles: u64) -> Option<u64>
    requires { cycles < 2 ^ 32 }
{
    let Ok(table) = pipe_table(alloc) else {
        return None;
    };
    law_of_tables();
    let Ok(file) = read(alloc, Example::Std.text()) else {
        return None;
    };
    let Ok(design) = bind(alloc, &file, &table) else {
        return None;
    };
    let Ok(order) = order(alloc, &design, &table) else {
        return None;
    };
    let Ok(walked) = bind(alloc, &file, &table) else {
        return None;
    };
    let mem = image(alloc)?;
    let ordered = OrderedDesign { design, order };
    let mut pipe = Pipe::new(Variant::Base, ordered, Plain::new(&walked), mem);
    let mut room = [0; 8];
    match drive(&mut pipe, cycles, false, &mut SureSink::over(&mut room)) {
        Ok(drove) => Some(drove.retired),
        Err(_) => None,
    }
}

/// The number of instructions that SEQ runs in this number of cycles.
fn on_seq(alloc: Global, cycles: u64) -> Option<u64> {
    let Ok(table) = seq_table(alloc) else {
        return None;
    };
    law_of_tables();
    let Ok(file) = read(alloc, Example::Seq.text()) else {
        return None;
    };
    let Ok(design) = bind(alloc, &file, &table) else {
        return None;
    };
    let Ok(order) = order(alloc, &design, &table) else {
        return None;
    };
    let Ok(walked) = bind(alloc, &file, &table) else {
        return None;
    };
    let mem = image(alloc)?;
    let ordered = OrderedDesign { design, order };
    let mut seq = Seq::new(Variant::Base, ordered, Plain::new(&walked), mem);
    Some(run(&mut seq, cycles).steps)
}

/// The answer to a machine and a number of cycles, and nothing if `cycles` is no number.
pub fn answer(alloc: Global, machine: &str, cycles: &str) -> Result<Option<String>, AllocError> {
    let Ok(cycles) = cycles.parse::<u32>() else {
        return Ok(None);
    };
    let ran = if machine == "psim" {
        on_pipe(alloc, cycles as u64)
    } else {
        on_seq(alloc, cycles as u64)
    };
    match ran {
        Some(records) => Ok(Some(format!(in alloc; "{records} records")?)),
        None => Ok(None),
    }
}
