//! Tests of memory images, numbers and texts.
use std::test::Fail;
use y86_base::{
    Boxed, Cursor, Image, ImageFault, Items, Numeral, Regs, Stat, after_blanks, decimal_at,
    first_line, is_less, keyword_at, meaning_of, number_in_base, register_names, split_hex,
};

#[test]
fn sizes_of_images(rt: HostRuntime) -> Result<(), Fail> {
    static SIZES: [(u64, bool); 10] = [
        (0, false),
        (8, false),
        (56, false),
        (64, true),
        (68, false),
        (72, true),
        (1_048_568, true),
        (1_048_576, true),
        (1_048_584, false),
        (u64::MAX - 7, false),
    ];
    for (size, legal) in &SIZES {
        match Image::new(rt.alloc(), *size) {
            Ok(image) => assert!(rt; *legal && image.size() == *size, "{size}"),
            Err(fault) => assert!(rt; !*legal && fault == ImageFault::Size, "{size}"),
        }
    }
    Ok(())
}

#[test]
fn images_at_their_edges(rt: HostRuntime) -> Result<(), Fail> {
    // An image of 64 bytes: the word to put, and its address; whether it is inside; then the byte at the address.
    static WORDS: [(u64, u64, bool, Option<u8>); 7] = [
        (0, 0x1122_3344_5566_7788, true, Some(0x88)),
        (56, 0x0102_0304_0506_0708, true, Some(0x08)),
        (57, u64::MAX, false, Some(0x07)),
        (63, u64::MAX, false, Some(0x01)),
        (64, u64::MAX, false, None),
        (u64::MAX - 7, u64::MAX, false, None),
        (u64::MAX, u64::MAX, false, None),
    ];
    let mut image = Image::new(rt.alloc(), 64)?;
    for (address, word, inside, byte) in &WORDS {
        let read = if *inside { Some(*word) } else { None };
        assert_eq!(rt; image.put(*address, *word), *inside, "put at {address}");
        assert_eq!(rt; image.word(*address), read, "word at {address}");
        assert_eq!(rt; image.byte(*address), *byte, "byte at {address}");
        assert_eq!(rt;
            image.put_byte(*address, 0xff),
            byte.is_some(),
            "put_byte at {address}"
        );
        if let Some(byte) = byte {
            image.put_byte(*address, *byte);
        }
    }
    Ok(())
}

#[test]
fn copies_of_images(rt: HostRuntime) -> Result<(), Fail> {
    let mut image = Image::new(rt.alloc(), 64)?;
    image.put(0, 0x1122_3344_5566_7788);
    image.put(56, 0x0102_0304_0506_0708);
    let copy = image.copy(rt.alloc())?;
    image.put(0, 0);
    assert_eq!(rt;
        (copy.word(0), copy.word(56)),
        (Some(0x1122_3344_5566_7788), Some(0x0102_0304_0506_0708))
    );
    assert_eq!(rt;
        (copy.word(1), image.word(1)),
        (Some(0x0011_2233_4455_6677), Some(0))
    );
    Ok(())
}

#[test]
fn places_of_bytes(rt: HostRuntime) -> Result<(), Fail> {
    // The place of each byte, and the place of the end.
    static PLACES: [(Option<u8>, u64, u64); 8] = [
        (Some(b'a'), 1, 1),
        (Some(b'\r'), 1, 2),
        (Some(b'\n'), 1, 3),
        (Some(b'b'), 2, 1),
        (Some(b'\n'), 2, 2),
        (Some(b'\n'), 3, 1),
        (Some(b'\r'), 4, 1),
        (None, 4, 2),
    ];
    let mut cursor = Cursor::new(b"a\r\nb\n\n\r");
    for (byte, line, column) in &PLACES {
        assert_eq!(rt; (cursor.line(), cursor.col()), (*line, *column));
        assert_eq!(rt; cursor.peek(), *byte, "{line}:{column}");
        assert_eq!(rt; cursor.next(), *byte, "{line}:{column}");
    }
    assert_eq!(rt; (cursor.next(), cursor.line(), cursor.col()), (None, 4, 2));
    Ok(())
}

#[test]
fn numerals(rt: HostRuntime) -> Result<(), Fail> {
    static DECIMALS: [(u64, &str); 4] = [
        (0, "0"),
        (9, "9"),
        (10, "10"),
        (u64::MAX, "18446744073709551615"),
    ];
    for (n, text) in &DECIMALS {
        assert_eq!(rt; Numeral::decimal(*n).as_bytes(), text.as_bytes(), "{n}");
    }
    static HEXES: [(usize, u64, &str); 7] = [
        (0, 0, "0"),
        (1, 0, "0"),
        (3, 0xa, "00a"),
        (4, 0x1234, "1234"),
        (4, 0xf_edcb, "fedcb"),
        (16, 0xd, "000000000000000d"),
        (16, u64::MAX, "ffffffffffffffff"),
    ];
    for (least, n, text) in &HEXES {
        assert_eq!(rt; Numeral::hex(*least, *n).as_bytes(), text.as_bytes(), "{n}");
    }
    Ok(())
}

#[test]
fn first_lines(rt: HostRuntime) -> Result<(), Fail> {
    let (first, rest) = first_line(b"x y\r\n\nz").ok_or("no line")?;
    assert_eq!(rt; (first, rest), (b"x y\r".as_slice(), b"\nz".as_slice()));
    let (second, rest) = first_line(rest).ok_or("no line")?;
    assert_eq!(rt; (second, rest), (b"".as_slice(), b"z".as_slice()));
    Ok(())
}

#[test]
fn lists_of_items(rt: HostRuntime) -> Result<(), Fail> {
    let mut items = Items::of([3, 1, 4].to_vec(rt.alloc())?);
    let same = Items::of([3, 9, 4].to_vec(rt.alloc())?);
    assert!(rt; items != same);
    items.items_mut()[1] = 9;
    assert!(rt; items == same);
    assert_eq!(rt; items.items(), same.into_vec().as_slice());
    Ok(())
}

#[test]
fn numbers(rt: HostRuntime) -> Result<(), Fail> {
    // The base, the digits, and the number.
    static NUMBERS: [(u64, &str, Option<u64>); 13] = [
        (10, "", Some(0)),
        (16, "", Some(0)),
        (10, "0", Some(0)),
        (10, "00907", Some(907)),
        (10, "18446744073709551615", Some(u64::MAX)),
        (10, "18446744073709551616", None),
        (10, "99999999999999999999999", None),
        (16, "fFfFfFfFfFfFfFfF", Some(u64::MAX)),
        (16, "10000000000000000", None),
        (16, "100000000000000000000", None),
        (16, "00000000000000000a0", Some(160)),
        (2, "101", Some(5)),
        (36, "zz", Some(1295)),
    ];
    for (base, digits, number) in &NUMBERS {
        assert!(rt;
            number_in_base(*base, digits.as_bytes()) == *number,
            "{digits}"
        );
    }
    Ok(())
}

#[test]
fn fronts(rt: HostRuntime) -> Result<(), Fail> {
    // A text, what follows its blanks, the hex digits at its front, and what follows them.
    static FRONTS: [(&str, &str, &str, &str); 6] = [
        ("", "", "", ""),
        (" \t\r", "", "", " \t\r"),
        (" \t\r\n a", "\n a", "", " \t\r\n a"),
        ("09afAF", "09afAF", "09afAF", ""),
        ("0g1", "0g1", "0", "g1"),
        ("@`:/G 1", "@`:/G 1", "", "@`:/G 1"),
    ];
    for (text, behind, digits, rest) in &FRONTS {
        let text = text.as_bytes();
        assert!(rt; after_blanks(text) == behind.as_bytes(), "{behind}");
        assert!(rt;
            split_hex(text) == (digits.as_bytes(), rest.as_bytes()),
            "{rest}"
        );
    }
    Ok(())
}

#[test]
fn decimals(rt: HostRuntime) -> Result<(), Fail> {
    // A text, whether it begins with `-`, the word of its number from -32768 to 65535, and what follows the number.
    static DECIMALS: [(&str, bool, Option<u64>, &str); 8] = [
        ("-32768,", true, Some(u64::MAX - 32767), ","),
        ("-32769", true, None, ""),
        ("65535x", false, Some(65535), "x"),
        ("65536", false, None, ""),
        ("-0-1", true, Some(0), "-1"),
        ("007 8", false, Some(7), " 8"),
        ("18446744073709551616", false, None, ""),
        ("-99999999999999999999 ", true, None, " "),
    ];
    for (text, negative, word, rest) in &DECIMALS {
        let (number, behind) = decimal_at(text.as_bytes()).ok_or("no number")?;
        assert!(rt; number.negative == *negative, "{text}");
        assert!(rt; number.word_within(32768, 65535) == *word, "{text}");
        assert!(rt; behind == rest.as_bytes(), "{text}");
    }
    assert!(rt;
        decimal_at(b"- 1").is_none() && decimal_at(b"--1").is_none() && decimal_at(b"").is_none()
    );
    Ok(())
}

#[test]
fn names(rt: HostRuntime) -> Result<(), Fail> {
    assert_eq!(rt;
        keyword_at(register_names(), b"%r10,8"),
        Some((10, b",8".as_slice()))
    );
    assert_eq!(rt; keyword_at(register_names(), b"%r1,8"), None);
    assert_eq!(rt; meaning_of(register_names(), b"%r10"), Some(10));
    assert_eq!(rt; meaning_of(register_names(), b"%r10 "), None);
    assert_eq!(rt;
        (Regs::name(4), Regs::name(15)),
        (b"%rsp".as_slice(), b"".as_slice())
    );
    assert_eq!(rt; (Stat::Ins.number(), Stat::Pip.number()), (4, 5));
    assert!(rt;
        is_less(u64::MAX, 0) && is_less(1 << 63, u64::MAX) && !is_less(0, 1 << 63) && !is_less(7, 7)
    );
    Ok(())
}

#[test]
fn boxes(rt: HostRuntime) -> Result<(), Fail> {
    let boxed = Boxed::of(rt.alloc(), 7_u64)?;
    let same = Boxed::of(rt.alloc(), 7_u64)?;
    assert!(rt; boxed == same && *boxed.get() == 7);
    assert_eq!(rt; same.into_inner(), 7);
    Ok(())
}
