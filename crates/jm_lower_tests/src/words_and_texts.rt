ghost use Rattle.std.specs.Prelude.{◌≡◌, ◌<◌};

use jm_bytes::{Buf, List, Meter, NoMemory, Order, Text, copy_of, extend, put_word, word_at};
use std::alloc::Global;
use std::marker::Brand;
use std::sync::ledger::{Blank, Ledger};
use std::test::Fail;

/// What is shown; words, and their bytes with the lowest first and with the highest first.
const WORDS: &[(&str, u32, [u8; 4], [u8; 4])] = &[
    ("zero", 0, [0, 0, 0, 0], [0, 0, 0, 0]),
    ("one", 1, [1, 0, 0, 0], [0, 0, 0, 1]),
    (
        "the magic",
        0xCAFE_DADA,
        [0xDA, 0xDA, 0xFE, 0xCA],
        [0xCA, 0xFE, 0xDA, 0xDA],
    ),
    ("the greatest", u32::MAX, [0xFF; 4], [0xFF; 4]),
];

#[test]
fn words_in_both_orders(rt: HostRuntime) {
    for (shows, word, little, big) in WORDS {
        assert_eq!(rt;
            put_word(Order::Little, *word),
            *little,
            "{shows}, put little"
        );
        assert_eq!(rt; put_word(Order::Big, *word), *big, "{shows}, put big");
        assert_eq!(rt;
            word_at(Order::Little, little, 0),
            *word,
            "{shows}, read little"
        );
        assert_eq!(rt; word_at(Order::Big, big, 0), *word, "{shows}, read big");
    }
    let bytes = [9, 1, 2, 3, 4, 9];
    assert_eq!(rt;
        word_at(Order::Little, &bytes, 1),
        0x0403_0201,
        "in the middle"
    );
    assert_eq!(rt;
        word_at(Order::Big, &bytes, 1),
        0x0102_0304,
        "in the middle"
    );
}

/// A text of two bytes, and a third one at its end.
fn grown_text(alloc: Global) -> Result<Text, NoMemory> {
    let mut text = Text::copy_of(alloc, b"ab")?;
    text.push(b'c')?;
    Ok(text)
}

/// Two bytes, and two more at their end.
fn grown_bytes(alloc: Global) -> Result<Vec<u8>, NoMemory> {
    let mut bytes = copy_of(alloc, b"ab")?;
    extend(&mut bytes, b"cd")?;
    Ok(bytes)
}

/// A list of two numbers, with room for one at first.
fn grown_list(alloc: Global) -> Result<List<u32>, NoMemory> {
    let mut numbers = List::with_capacity(alloc, 1)?;
    numbers.push(7)?;
    numbers.push(8)?;
    Ok(numbers)
}

#[test]
fn texts_grow(rt: HostRuntime) -> Result<(), Fail> {
    let text = grown_text(rt.alloc())?;
    assert_eq!(rt; text.len(), 3);
    assert_eq!(rt; text.as_slice(), b"abc".as_slice(), "a grown text");
    let text = Text::from_vec(text.into_vec());
    assert_eq!(rt;
        text.as_slice(),
        b"abc".as_slice(),
        "the same from its bytes"
    );
    assert_eq!(rt; Text::new(rt.alloc()).len(), 0, "a new text");
    Ok(())
}

#[test]
fn lists_grow(rt: HostRuntime) -> Result<(), Fail> {
    assert_eq!(rt; grown_bytes(rt.alloc())?.as_slice(), b"abcd".as_slice());
    let numbers = grown_list(rt.alloc())?;
    assert_eq!(rt; numbers.len(), 2);
    let numbers = List::from_vec(numbers.into_vec());
    assert_eq!(rt;
        numbers.as_slice(),
        [7, 8].as_slice(),
        "the same from its items"
    );
    assert_eq!(rt; List::<u32>::new(rt.alloc()).len(), 0, "a new list");
    Ok(())
}

/// The first byte, the word behind it and the last two of seven bytes, from a second value of the
/// buffer.
fn parts_of<L: Ledger>(bytes: &[u8; 7], blank: Blank) -> (u8, u32, &[u8])
    requires name { blank.name ≡ L.name }
    requires parts { blank.parts ≡ L.parts }
    requires some { 0 < blank.parts }
{
    let mut reads = Meter::<L>::new(bytes, blank);
    let buf = Buf::new(bytes).again();
    let first = buf.byte(0, &mut reads);
    let word = buf.word(Order::Big, 1, &mut reads);
    (first, word, buf.part(5, 2, &mut reads))
}

#[test]
fn a_buffer_gives_its_parts(rt: HostRuntime) {
    let (first, word, last) = parts_of::<Brand>(&[1, 2, 3, 4, 5, 6, 7], Blank::new(1));
    assert_eq!(rt; first, 1, "the first byte");
    assert_eq!(rt; word, 0x0203_0405, "the word behind it");
    assert_eq!(rt; last, [6, 7].as_slice(), "the last two bytes");
    assert_eq!(rt; Buf::new(b"abc").len(), 3, "the length");
}
