use plain_words::distinct::are_distinct;
use plain_words::names::is_name;
use plain_words::numbers::read_number;
use plain_words::parts::{
    copy_parts, input_parts, is_copy_word, is_input_word, is_plate, plate_parts,
};
use std::test::Fail;

// A word, and whether it has two parts with a name, two parts without one, and three parts.
const WORDS: [(&str, bool, bool, bool); 8] = [
    ("Cyan:in", true, true, false),
    ("Cyan:in:out", false, false, true),
    ("a/b:out", false, true, false),
    (":in", false, false, false),
    ("Cyan:", false, false, false),
    ("Cyan", false, false, false),
    ("Cyan:in:", false, false, false),
    ("Cyan:in:out:more", false, false, false),
];

#[test]
fn words_have_two_or_three_parts(rt: HostRuntime) -> Result<(), Fail> {
    for (word, input, copy, plate) in WORDS {
        assert!(rt; is_input_word(input_parts(word)) == input, "{word}");
        assert!(rt; is_copy_word(copy_parts(word)) == copy, "{word}");
        assert!(rt; is_plate(plate_parts(word)) == plate, "{word}");
    }
    Ok(())
}

// A word, and the number that it writes, from 1 to 64.
const NUMBERS: [(&str, Option<u32>); 8] = [
    ("1", Some(1)),
    ("0000000064", Some(64)),
    ("00000000064", None),
    ("65", None),
    ("0", None),
    ("+8", None),
    ("", None),
    ("9999999999", None),
];

#[test]
fn numbers_have_ten_digits_at_most(rt: HostRuntime) -> Result<(), Fail> {
    for (word, number) in NUMBERS {
        assert!(rt; read_number(word, 1, 64) == number, "{word}");
    }
    Ok(())
}

#[test]
fn names_and_texts_are_reported_apart(rt: HostRuntime) -> Result<(), Fail> {
    assert!(rt; is_name(b"Spot-1"));
    assert!(rt; !is_name(b"Spot 1"));
    assert!(rt; are_distinct(&["a", "b", "c"]));
    assert!(rt; !are_distinct(&["a", "b", "a"]));
    Ok(())
}
