//! Program `n`: instructions drawn with seed `n`, a halt, and a data area.
ghost use Rattle.std.specs.Prelude.{◌≡◌, ◌<◌, ◌≤◌, ◌+◌, ◌*◌, IfOk, length};
ghost use Rattle.y86_base.specs.Image.{with_bytes};
ghost use Rattle.y86_isa.specs.Encoding.{IsValid, widest};
ghost use Rattle.prog_gen.specs.Draws.{lcg_next};
ghost use Rattle.prog_gen.specs.Programs as spec;

use crate::draws::Draws;
use std::alloc::Global;
use y86_base::{Image, ImageFault, Memory};
use y86_isa::{Instr, encode};

const NO_REGISTER: u8 = 15;

/// %r14, which no instruction of a program writes. It is 0, so that an address from it is the constant itself.
const ZERO: u8 = 14;

/// An instruction with these fields.
fn instruction(icode: u8, ifun: u8, r_a: u8, r_b: u8, val_c: u64) -> Instr
    ensures { result ≡ record { icode = icode; ifun = ifun; r_a = r_a; r_b = r_b; val_c = val_c } }
{
    Instr {
        icode,
        ifun,
        r_a,
        r_b,
        val_c,
    }
}

/// A register, one of the first fourteen.
fn draw_register(draws: &mut Draws) -> u8
    ensures after { draws.new ≡ lcg_next draws.old }
    ensures number { result ≡ spec.register draws.new }
    ensures small { result < 14 }
{
    (draws.draw() % 14) as u8
}

/// The address of one of 256 words of the data area.
fn draw_address(draws: &mut Draws, data_at: u64) -> u64
    requires { data_at < 2000000 }
    ensures after { draws.new ≡ lcg_next draws.old }
    ensures number { result ≡ spec.address data_at draws.new }
{
    data_at + 8 * (draws.draw() % 256)
}

/// The next instruction of a program, at an address. Its kind is drawn first, then its fields in the order in which
/// they are written.
#[tactic(auto, using(crate::proofs::Valid::irmovq_valid, crate::proofs::Valid::opq_valid, crate::proofs::Valid::rrmovq_valid, crate::proofs::Valid::rmmovq_valid, crate::proofs::Valid::mrmovq_valid, crate::proofs::Valid::jxx_valid), unfolding(crate::specs::Programs::next_drawn))]
fn draw_instruction(draws: &mut Draws, data_at: u64, at: u64) -> Instr
    requires data { data_at < 2000000 }
    requires place { at < 2000000 }
    ensures drawn { spec.next_drawn data_at at draws.old ≡ record { instr = result; word = draws.new } }
    ensures valid { IsValid widest result }
{
    let kind = draws.draw() % 6;
    if kind == 0 {
        let val_c = draws.draw();
        let r_b = draw_register(draws);
        instruction(3, 0, NO_REGISTER, r_b, val_c)
    } else if kind == 1 {
        let ifun = (draws.draw() % 4) as u8;
        let r_a = draw_register(draws);
        let r_b = draw_register(draws);
        instruction(6, ifun, r_a, r_b, 0)
    } else if kind == 2 {
        let ifun = (draws.draw() % 7) as u8;
        let r_a = draw_register(draws);
        let r_b = draw_register(draws);
        instruction(2, ifun, r_a, r_b, 0)
    } else if kind == 3 {
        let r_a = draw_register(draws);
        let val_c = draw_address(draws, data_at);
        instruction(4, 0, r_a, ZERO, val_c)
    } else if kind == 4 {
        let from = draw_address(draws, data_at);
        let into = draw_register(draws);
        instruction(5, 0, into, ZERO, from)
    } else {
        let ifun = (draws.draw() % 7) as u8;
        instruction(7, ifun, NO_REGISTER, NO_REGISTER, at + 9)
    }
}

/// Puts bytes into an image from an address on.
fn put_bytes(image: &mut Image, at: u64, bytes: &[u8])
    requires { at + length bytes.now ≤ length image.old }
    ensures { image.new ≡ with_bytes image.old at bytes.now }
{
    // the size bounds every address
    let _size = image.size();
    let mut i = 0;
    while i < bytes.len() {
        image.put_byte(at + i as u64, bytes[i]);
        i += 1;
    }
}

/// The image of program `n`: `n` instructions drawn with seed `n`; zeros, the first of which is a halt; and 2048
/// bytes of data, from the first multiple of 8 from 10n + 8 on. Its memory, 1,002,056 bytes at most, is allocated
/// before the first draw.
pub fn program(alloc: Global, n: u64) -> Result<Image, Memory>
    requires least { 1 ≤ n }
    requires most { n ≤ 100000 }
    ensures { IfOk result (λ image. image ≡ spec.program n) }
{
    let data_at = (10 * n + 15) / 8 * 8;
    let mut image = match Image::new(alloc, data_at + 2048) {
        Ok(image) => image,
        Err(_) => return Err(Memory),
    };
    let mut draws = Draws::from(n);
    let mut at = 0;
    let mut k = 0;
    while k < n {
        let instr = draw_instruction(&mut draws, data_at, at);
        let bytes = encode(&instr);
        put_bytes(&mut image, at, bytes.as_slice());
        at += bytes.len() as u64;
        k += 1;
    }
    Ok(image)
}
