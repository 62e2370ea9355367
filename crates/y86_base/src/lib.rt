//! The types that all crates share: memory image, register file, flags and status, and the reading of bytes and lines.
#![tactic(auto)]

mod boxed;
mod cursor;
mod image;
mod items;
mod keyword;
mod laws;
mod number;
mod numeral;
mod parts;
mod registers;
mod text;
mod words;

pub use boxed::Boxed;
pub use cursor::Cursor;
pub use image::{Image, ImageFault, is_image_size};
pub use items::{Items, push};
pub use keyword::{Keyword, keyword_at, meaning_of};
pub use laws::{
    law_of_decimals, law_of_digits, law_of_lines, law_of_numerals, law_of_places, law_of_registers,
    law_of_runs, law_of_statuses, law_of_words,
};
pub use number::{Number, decimal_at};
pub use numeral::{Numeral, put_decimal, put_signed};
pub use parts::{Flags, Memory, Stat, Variant};
pub use registers::{Regs, register_names};
pub use text::{
    after_blanks, after_byte, first_line, hex_value, is_blank, is_decimal, is_hex, is_letter,
    is_name_byte, number_in_base, put, split_decimal, split_hex, split_name,
};
pub use words::is_less;
