ghost use Rattle.std.specs.Prelude.{◌≤◌, length};
ghost use Rattle.ps_tokens.specs.Limits.{longest_job};

use crate::reading::read;
use job_parts::inks;
use page_model::parts::{DetailList, Ink};
use ps_tokens::LONGEST_JOB;
use ps_tokens::faults::{JobError, JobFault};
use std::alloc::{AllocError, Global};
use std::process::Abort;
use std::test::Fail;

fn ink_text(alloc: Global, ink: &Ink) -> Result<String, AllocError> {
    let len = ink.name.len();
    let first = ink.name.as_slice().first().copied().unwrap_or(0);
    let density = ink.density;
    let kind = ink.kind;
    format!(in alloc; "{len} {first} {density} {kind:?};")
}

fn inks_text(alloc: Global, inks: &DetailList) -> Result<String, AllocError> {
    let mut text = String::new(alloc);
    for ink in inks.as_slice() {
        let one = ink_text(alloc, ink)?;
        text.push_str(one.as_str())?;
    }
    Ok(text)
}

fn details_text(alloc: Global, bytes: &[u8]) -> Result<String, AllocError>
    requires { length bytes.now ≤ longest_job }
{
    let all = match read(alloc, bytes) {
        Ok(all) => all,
        Err(_) => return String::from_str(alloc, "not read"),
    };
    match inks(alloc, &all, 0) {
        Ok(found) => inks_text(alloc, &found),
        Err(JobError::Fault(JobFault { kind, at })) => format!(in alloc; "{kind:?} at {at}"),
        Err(JobError::OutOfMemory) => String::from_str(alloc, "out of memory"),
    }
}

fn expect_all(rt: &impl Abort, alloc: Global, table: &[(&[u8], &str)]) -> Result<(), AllocError> {
    for (bytes, want) in table {
        assert!(rt; bytes.len() <= LONGEST_JOB);
        let text = details_text(alloc, bytes)?;
        assert_eq!(rt; text.as_str(), *want, "{bytes:?}");
    }
    Ok(())
}

// A value of TrappingDetails, and its inks in order, each as the length and the first byte of its name, its density and
// its kind; or the fault.
static DETAILS: [(&[u8], &str); 34] = [
    (b"<< /Type 1001 >>", ""),
    (b"<< /Type 1001 /ColorantDetails << >> >>", ""),
    (
        b"<< /ColorantDetails << /Cyan << /NeutralDensity .61 >> >> /Type 1001.00001 >>",
        "4 67 6100 Normal;",
    ),
    (
        b"<< /Type 1001 /ColorantDetails << /D << /NeutralDensity 0.001 /ColorantType /Normal >> /C << /NeutralDensity 10 /ColorantType /Transparent >> /B << /ColorantType /Opaque /NeutralDensity 1 >> /A << /NeutralDensity 1.70 /ColorantType /OpaqueIgnore >> >> >>",
        "1 65 17000 OpaqueIgnore;1 66 10000 Opaque;1 67 100000 Transparent;1 68 10 Normal;",
    ),
    (
        b"<< /Type 1001 /ColorantDetails << /aa << /NeutralDensity 1 >> /a << /NeutralDensity 2 >> /B << /NeutralDensity 3 >> / << /NeutralDensity 4 >> >> >>",
        "0 0 40000 Normal;1 66 30000 Normal;1 97 20000 Normal;2 97 10000 Normal;",
    ),
    (
        b"<< /Type 1001 /ColorantDetails << /A << /NeutralDensity 0 >> /A << /NeutralDensity 2 >> >> >>",
        "1 65 20000 Normal;",
    ),
    (
        b"<< /Type 1001 /ColorantDetails << /A << /NeutralDensity (x) /NeutralDensity 2 /ColorantType 5 /ColorantType /Opaque >> >> >>",
        "1 65 20000 Opaque;",
    ),
    (
        b"<< /Type 5 /Type 1001 /ColorantDetails 5 /ColorantDetails << >> >>",
        "",
    ),
    (
        b"<< /Other 5 /Type 1001 /ColorantDetails << /A << /Other [ /NeutralDensity ] /NeutralDensity 2 >> >> >>",
        "1 65 20000 Normal;",
    ),
    (b"5", "NotDictionary at 0"),
    (b"[ << /Type 1001 >> ]", "NotDictionary at 0"),
    (b"<< >>", "MissingKey at 0"),
    (b" << /ColorantDetails << >> >>", "MissingKey at 1"),
    (b"<< /Type 1000 >>", "WrongType at 9"),
    (b"<< /Type 1001.0001 >>", "WrongType at 9"),
    (b"<< /Type -1001 >>", "WrongType at 9"),
    (b"<< /Type /1001 >>", "WrongType at 9"),
    (
        b"<< /Type 1001 /ColorantDetails 5 >>",
        "NotDictionary at 31",
    ),
    (b"<< /Type 1000 /ColorantDetails 5 >>", "WrongType at 9"),
    (
        b"<< /ColorantDetails 5 /Type 1000 >>",
        "NotDictionary at 20",
    ),
    (b"<< /ColorantDetails 5 >>", "NotDictionary at 20"),
    (
        b"<< /Type 1001 /ColorantDetails << /A 5 >> >>",
        "NotDictionary at 37",
    ),
    (
        b"<< /Type 1001 /ColorantDetails << /A << >> >> >>",
        "MissingKey at 37",
    ),
    (
        b"<< /Type 1001 /ColorantDetails << /A << /ColorantType /Opaque >> >> >>",
        "MissingKey at 37",
    ),
    (
        b"<< /Type 1001 /ColorantDetails << /A << /NeutralDensity .0009 >> >> >>",
        "BadDensity at 56",
    ),
    (
        b"<< /Type 1001 /ColorantDetails << /A << /NeutralDensity 10.0001 >> >> >>",
        "BadDensity at 56",
    ),
    (
        b"<< /Type 1001 /ColorantDetails << /A << /NeutralDensity -1 >> >> >>",
        "BadDensity at 56",
    ),
    (
        b"<< /Type 1001 /ColorantDetails << /A << /NeutralDensity (1) >> >> >>",
        "BadDensity at 56",
    ),
    (
        b"<< /Type 1001 /ColorantDetails << /A << /ColorantType /normal >> >> >>",
        "BadKind at 54",
    ),
    (
        b"<< /Type 1001 /ColorantDetails << /A << /ColorantType (Normal) >> >> >>",
        "BadKind at 54",
    ),
    (
        b"<< /Type 1001 /ColorantDetails << /A << /ColorantType 1 /NeutralDensity 0 >> >> >>",
        "BadKind at 54",
    ),
    (
        b"<< /Type 1001 /ColorantDetails << /A << /NeutralDensity 0 /ColorantType 1 >> >> >>",
        "BadDensity at 56",
    ),
    (
        b"<< /Type 1001 /ColorantDetails << /B << /NeutralDensity 0 >> /A 5 >> >>",
        "BadDensity at 56",
    ),
    (
        b"<< /Type 1001 /ColorantDetails << /B 5 /A << /NeutralDensity 0 >> /B << /NeutralDensity 1 >> >> >>",
        "BadDensity at 61",
    ),
];

#[test]
fn names_inks(rt: HostRuntime) -> Result<(), Fail> {
    expect_all(&rt, rt.alloc(), &DETAILS)?;
    Ok(())
}
