use escaped_names::escape::{NameFault, escape};
use std::test::Fail;

// A name, and its form in a job.
const NAMES: [(&str, &str); 8] = [
    ("Cyan", "Cyan"),
    ("PANTONE 185 C", "PANTONE#20185#20C"),
    ("no. 7", "no.#207"),
    ("a#20b", "a#2320b"),
    ("gr\u{fc}n", "gr#C3#BCn"),
    ("(100%)", "#28100#25#29"),
    ("\u{7f}\n!~", "#7F#0A!~"),
    ("{[</>]}", "#7B#5B#3C#2F#3E#5D#7D"),
];

#[test]
fn names_are_escaped_byte_by_byte(rt: HostRuntime) -> Result<(), Fail> {
    for (name, escaped) in NAMES {
        let is_so = match escape(name.as_bytes()) {
            Ok(given) => given.as_slice() == escaped.as_bytes(),
            Err(_) => false,
        };
        assert!(rt; is_so, "{name}");
    }
    Ok(())
}

// How many bytes of a kind a name has, and whether it fits the 64 bytes of a job's name.
const LENGTHS: [(usize, usize, Option<NameFault>); 6] = [
    (0, 0, Some(NameFault::Empty)),
    (64, 0, None),
    (65, 0, Some(NameFault::TooLong)),
    (1, 21, None),
    (2, 21, Some(NameFault::TooLong)),
    (0, 22, Some(NameFault::TooLong)),
];

#[test]
fn names_have_64_bytes_at_most(rt: HostRuntime) -> Result<(), Fail> {
    for (letters, spaces, fault) in LENGTHS {
        let mut bytes = [b'a'; 96];
        for k in 0..spaces {
            if letters + k < 96 {
                bytes[letters + k] = b' ';
            }
        }
        let count = (letters + spaces).min(96);
        let given = escape(&bytes[..count]).err();
        assert!(rt; given == fault, "{letters} letters, {spaces} spaces");
    }
    Ok(())
}
