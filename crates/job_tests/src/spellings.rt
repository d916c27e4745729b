ghost use Rattle.std.specs.Prelude.{◌≤◌, length};
ghost use Rattle.ps_tokens.specs.Limits.{longest_job};

use crate::reading::read;
use lists::names::OutOfMemory;
use ps_tokens::dictionary::keys;
use ps_tokens::faults::{JobError, JobFault};
use ps_tokens::names::last_keys;
use ps_tokens::object::{Body, Object};
use ps_tokens::token::TokenList;
use ps_tokens::{LONGEST_JOB, last, tokens};
use std::alloc::{AllocError, Global};
use std::process::Abort;
use std::test::Fail;

fn fault_text(alloc: Global, error: JobError) -> Result<String, AllocError> {
    match error {
        JobError::Fault(JobFault { kind, at }) => format!(in alloc; "{kind:?} at {at}"),
        JobError::OutOfMemory => String::from_str(alloc, "out of memory"),
    }
}

fn token_text(alloc: Global, found: &TokenList) -> Result<String, AllocError> {
    let mut text = String::new(alloc);
    for token in found.as_slice() {
        let at = token.at;
        let len = token.len;
        let kind = token.kind;
        let one = format!(in alloc; "{at}+{len} {kind:?};")?;
        text.push_str(one.as_str())?;
    }
    Ok(text)
}

fn tokens_text(alloc: Global, bytes: &[u8]) -> Result<String, AllocError>
    requires { length bytes.now ≤ longest_job }
{
    match tokens(alloc, bytes) {
        Ok(found) => token_text(alloc, &found),
        Err(error) => fault_text(alloc, error),
    }
}

fn body_text(alloc: Global, body: &Body) -> Result<String, AllocError> {
    match body {
        Body::Number(number) => format!(in alloc; "{number}"),
        Body::Truth(truth) => format!(in alloc; "{truth}"),
        Body::Null => String::from_str(alloc, "null"),
        Body::Text => String::from_str(alloc, "text"),
        Body::Literal(name) => format!(in alloc; "/{:?}", name.as_slice()),
        Body::Operator(name) => format!(in alloc; "{:?}", name.as_slice()),
        Body::Array => String::from_str(alloc, "array"),
        Body::Dict => String::from_str(alloc, "dict"),
    }
}

fn object_text(alloc: Global, object: &Object) -> Result<String, AllocError> {
    let at = object.at;
    let inside = object.inside;
    let body = body_text(alloc, &object.body)?;
    format!(in alloc; "{at}:{inside} {body};")
}

fn objects_text(alloc: Global, bytes: &[u8]) -> Result<String, AllocError>
    requires { length bytes.now ≤ longest_job }
{
    match read(alloc, bytes) {
        Ok(all) => {
            let mut text = String::new(alloc);
            for object in all.as_slice() {
                let one = object_text(alloc, object)?;
                text.push_str(one.as_str())?;
            }
            Ok(text)
        }
        Err(error) => fault_text(alloc, error),
    }
}

// Bytes and the tokens that they spell, each as offset, length and kind; or the fault and its offset.
static SPELLINGS: [(&[u8], &str); 77] = [
    (b"", ""),
    (b".25", "0+3 Number(2500);"),
    (b"72", "0+2 Number(720000);"),
    (b"-0.00019", "0+8 Number(-1);"),
    (b"1.", "0+2 Number(10000);"),
    (b"1000000.99999", "0+13 Number(10000009999);"),
    (b"-1000000.99999", "0+14 Number(-10000009999);"),
    (b"+3.5", "0+4 Number(35000);"),
    (b"0001000000", "0+10 Number(10000000000);"),
    (b"-0", "0+2 Number(0);"),
    (b"0.12345", "0+7 Number(1234);"),
    (b"0.99999", "0+7 Number(9999);"),
    (b"1000001", "NumberTooLarge at 0"),
    (b"-1000001", "NumberTooLarge at 0"),
    (b" 99999999999999999999999", "NumberTooLarge at 1"),
    (b"16#FF", "BadToken at 0"),
    (b"1e5", "BadToken at 0"),
    (b"-x", "BadToken at 0"),
    (b".", "BadToken at 0"),
    (b"+", "BadToken at 0"),
    (b"-.", "BadToken at 0"),
    (b"--1", "BadToken at 0"),
    (b"1.2.3", "BadToken at 0"),
    (b"1-", "BadToken at 0"),
    (b".x", "BadToken at 0"),
    (b"x-1", "0+3 Word;"),
    (b"a1 a.b", "0+2 Word;3+3 Word;"),
    (b"1a", "BadToken at 0"),
    (b"a\0b", "0+1 Word;2+1 Word;"),
    (
        b"a\tb\x0cc\rd\ne f",
        "0+1 Word;2+1 Word;4+1 Word;6+1 Word;8+1 Word;10+1 Word;",
    ),
    (b"a\x0bb", "0+3 Word;"),
    (b"\x0b1", "0+2 Word;"),
    (b"%c\na", "3+1 Word;"),
    (b"%c\ra", "3+1 Word;"),
    (b"%c\x0ca", "3+1 Word;"),
    (b"%c\x0bd\0e\na", "7+1 Word;"),
    (b"%c", ""),
    (b"%", ""),
    (b"a%b", "0+1 Word;"),
    (b"1%b\n2", "0+1 Number(10000);4+1 Number(20000);"),
    (b"/a/b", "0+2 Literal;2+2 Literal;"),
    (b"//a", "BadToken at 0"),
    (b"a //a", "BadToken at 2"),
    (b"/ a", "0+1 Literal;2+1 Word;"),
    (b"/", "0+1 Literal;"),
    (b"/%", "0+1 Literal;"),
    (b"/16#FF", "0+6 Literal;"),
    (
        b"<<>>[]",
        "0+2 OpenDict;2+2 CloseDict;4+1 OpenArray;5+1 CloseArray;",
    ),
    (b"<<<>>>", "0+2 OpenDict;2+2 Text;4+2 CloseDict;"),
    (b"<<a>>", "0+2 OpenDict;2+1 Word;3+2 CloseDict;"),
    (b"<~", "BadToken at 0"),
    (b"<", "BadToken at 0"),
    (b"<>", "0+2 Text;"),
    (b"<4 1\nfF0>", "0+9 Text;"),
    (b"<4g>", "BadToken at 0"),
    (b"<41", "BadToken at 0"),
    (b">", "BadToken at 0"),
    (b"> >", "BadToken at 0"),
    (b"[ {", "BadToken at 2"),
    (b"}", "BadToken at 0"),
    (b")", "BadToken at 0"),
    (b"()", "0+2 Text;"),
    (b"(a(b)c)d", "0+7 Text;7+1 Word;"),
    (b"(a\\)b)", "0+6 Text;"),
    (b"(a\\(b)", "0+6 Text;"),
    (b"(\\\\)", "0+4 Text;"),
    (b"(a\n%b)", "0+6 Text;"),
    (b"(()", "BadToken at 0"),
    (b"(\\)", "BadToken at 0"),
    (b"(\\", "BadToken at 0"),
    (b"(", "BadToken at 0"),
    (
        b"<< /Enabled false >> settrapparams showpage",
        "0+2 OpenDict;3+8 Literal;12+5 Word;18+2 CloseDict;21+13 Word;35+8 Word;",
    ),
    (
        b"<< /TrapWidth 1e5 >> settrapparams showpage",
        "BadToken at 14",
    ),
    (b"\xff\x80", "0+2 Word;"),
    (b"1<<", "0+1 Number(10000);1+2 OpenDict;"),
    (
        b"1[2]",
        "0+1 Number(10000);1+1 OpenArray;2+1 Number(20000);3+1 CloseArray;",
    ),
    (b"(1)2", "0+3 Text;3+1 Number(20000);"),
];

// Bytes and the objects that they write out, each as offset, number of objects within and body; or the fault.
static OBJECTS: [(&[u8], &str); 45] = [
    (b"", ""),
    (
        b"1 (a) <41> true false null",
        "0:0 10000;2:0 text;6:0 text;11:0 true;16:0 false;22:0 null;",
    ),
    (b"/ab True", "0:0 /[97, 98];4:0 [84, 114, 117, 101];"),
    (b"/true", "0:0 /[116, 114, 117, 101];"),
    (b"/", "0:0 /[];"),
    (b"[]", "0:0 array;"),
    (b"<<>>", "0:0 dict;"),
    (
        b"[ 1 [ 2 ] 3 ] 4",
        "0:4 array;2:0 10000;4:1 array;6:0 20000;10:0 30000;14:0 40000;",
    ),
    (
        b"<< /a [ 1 2 ] /b << /c null >> >>",
        "0:8 dict;3:0 /[97];6:2 array;8:0 10000;10:0 20000;14:0 /[98];17:2 dict;20:0 /[99];23:0 null;",
    ),
    (b"]", "Unmatched at 0"),
    (b">>", "Unmatched at 0"),
    (b"[ >>", "Unmatched at 2"),
    (b"<< ]", "Unmatched at 3"),
    (b"<< /a ]", "Unmatched at 6"),
    (b"<< /a >>", "OddDictionary at 6"),
    (b"<< /a 1 /b >>", "OddDictionary at 11"),
    (b"<< 1", "KeyNotName at 3"),
    (b"<< (a)", "KeyNotName at 3"),
    (b"<< true", "KeyNotName at 3"),
    (b"<< [", "KeyNotName at 3"),
    (b"<< <<", "KeyNotName at 3"),
    (b"<< x", "KeyNotName at 3"),
    (b"<< /a 1 2", "KeyNotName at 8"),
    (
        b"<< /a /b /c /d >>",
        "0:4 dict;3:0 /[97];6:0 /[98];9:0 /[99];12:0 /[100];",
    ),
    (b"[ x", "NameInside at 2"),
    (b"<< /a x", "NameInside at 6"),
    (b"[ [ ] x", "NameInside at 6"),
    (b"<< /TrapWidth 1", "Unclosed at 0"),
    (b"[ [ ]", "Unclosed at 0"),
    (b"[ [", "Unclosed at 2"),
    (b"<< /a [", "Unclosed at 6"),
    (
        b"[[[[[[[[[[[[[[[[]]]]]]]]]]]]]]]] x",
        "0:15 array;1:14 array;2:13 array;3:12 array;4:11 array;5:10 array;6:9 array;7:8 array;8:7 array;9:6 array;10:5 array;11:4 array;12:3 array;13:2 array;14:1 array;15:0 array;33:0 [120];",
    ),
    (b"[[[[[[[[[[[[[[[[[", "TooDeep at 16"),
    (b"[[[[[[[[[[[[[[[[<<", "TooDeep at 16"),
    (b"[[[[[[[[[[[[[[[[>>", "Unmatched at 16"),
    (b"[[[[[[[[[[[[[[[[x", "NameInside at 16"),
    (b"[[[[[[[[[[[[[[[[ ", "Unclosed at 15"),
    (b"[[[[[[[[[[[[[[[<<[", "KeyNotName at 17"),
    (b"[[[[[[[[[[[[[[[<<x", "KeyNotName at 17"),
    (b"[[[[[[[[[[[[[[[<</a x", "NameInside at 20"),
    (b"[[[[[[[[[[[[[[[<</a>>", "OddDictionary at 19"),
    (b"[[[[[[[[[[[[[[[<</a[", "TooDeep at 19"),
    (b"[[[[[[[[[[[[[[[<<]", "Unmatched at 17"),
    (b"[ 1e5 ]", "BadToken at 2"),
    (b"[ ] ] 1e5", "BadToken at 6"),
];

// The bytes of a dictionary, a key, and the place of the value of its last entry.
static ENTRIES: [(&[u8], &[u8], Option<u32>); 12] = [
    (b"<< /a 1 /b [ 2 /a 3 ] /a 4 >>", b"a", Some(9)),
    (b"<< /a 1 /b [ 2 /a 3 ] /a 4 >>", b"b", Some(4)),
    (b"<< /a 1 /b [ 2 /a 3 ] /a 4 >>", b"c", None),
    (b"<< /a 1 /b [ 2 /a 3 ] /a 4 >>", b"", None),
    (b"<< /a /b >> /b 1", b"b", None),
    (b"<< /a << /b 1 >> /c 2 >>", b"b", None),
    (b"<< /a << /b 1 >> /c 2 >>", b"c", Some(6)),
    (b"<< /ab 1 /cd 2 >>", b"cd", Some(4)),
    (b"<< /ab 1 /cd 2 >>", b"ba", None),
    (b"<< / 1 >>", b"", Some(2)),
    (b"<< >>", b"a", None),
    (b"<< /a 1 /a 2 /a 3 >>", b"a", Some(6)),
];

fn expect_tokens(
    rt: &impl Abort,
    alloc: Global,
    table: &[(&[u8], &str)],
) -> Result<(), AllocError> {
    for (bytes, want) in table {
        assert!(rt; bytes.len() <= LONGEST_JOB);
        let text = tokens_text(alloc, bytes)?;
        assert_eq!(rt; text.as_str(), *want, "{bytes:?}");
    }
    Ok(())
}

fn expect_objects(
    rt: &impl Abort,
    alloc: Global,
    table: &[(&[u8], &str)],
) -> Result<(), AllocError> {
    for (bytes, want) in table {
        assert!(rt; bytes.len() <= LONGEST_JOB);
        let text = objects_text(alloc, bytes)?;
        assert_eq!(rt; text.as_str(), *want, "{bytes:?}");
    }
    Ok(())
}

fn expect_entries(rt: &impl Abort, alloc: Global, table: &[(&[u8], &[u8], Option<u32>)]) {
    for (bytes, key, want) in table {
        assert!(rt; bytes.len() <= LONGEST_JOB);
        match read(alloc, bytes) {
            Ok(all) => assert_eq!(rt; last(&all, 0, key), *want, "{key:?} in {bytes:?}"),
            Err(_) => assert!(rt; false, "{bytes:?}"),
        }
    }
}

fn expect_last_keys(
    rt: &impl Abort,
    alloc: Global,
    bytes: &[u8],
    every: &[u32],
    by_name: &[u32],
) -> Result<(), AllocError> {
    assert!(rt; bytes.len() <= LONGEST_JOB);
    let Ok(all) = read(alloc, bytes) else {
        assert!(rt; false, "{bytes:?}");
        return Ok(());
    };
    match keys(alloc, &all, 0) {
        Ok(found) => assert_eq!(rt; found.as_slice(), every),
        Err(OutOfMemory) => assert!(rt; false),
    }
    match last_keys(alloc, &all, 0) {
        Ok(found) => assert_eq!(rt; found.as_slice(), by_name),
        Err(OutOfMemory) => assert!(rt; false),
    }
    Ok(())
}

#[test]
fn orders_names(rt: HostRuntime) -> Result<(), Fail> {
    let bytes = b"<< /b 1 /a [ 2 ] /b 3 /aa 4 /B 5 >>";
    expect_last_keys(&rt, rt.alloc(), bytes, &[1, 3, 6, 8, 10], &[10, 3, 8, 6])?;
    Ok(())
}

#[test]
fn spells_tokens(rt: HostRuntime) -> Result<(), Fail> {
    expect_tokens(&rt, rt.alloc(), &SPELLINGS)?;
    Ok(())
}

#[test]
fn writes_out_objects(rt: HostRuntime) -> Result<(), Fail> {
    expect_objects(&rt, rt.alloc(), &OBJECTS)?;
    Ok(())
}

#[test]
fn finds_the_last_entry(rt: HostRuntime) {
    expect_entries(&rt, rt.alloc(), &ENTRIES);
}
