ghost use Rattle.std.specs.Prelude.{◌≡◌, ◌++◌, IfOk, OnOk, decimal};
ghost use Rattle.presscheck_cli.specs.Text.{check_text as text_spec};
ghost use Rattle.common_errors.specs.Lines.{line};

use lists::list::List;
use lists::names::{Name, OutOfMemory};
use std::alloc::{AllocError, Global};
use trap_report::lines::{add, add_number};

/// The text that a check prints: lines that each end with LF, numbers in decimal. The form is this project's own.
pub(crate) fn check_text(
    alloc: Global,
    radius: u32,
    before: u64,
    after: u64,
) -> Result<Name, OutOfMemory>
    ensures { IfOk result (λ text. text ≡ text_spec radius before after) }
{
    let mut text: Vec<u8> = Vec::new(alloc);
    match add_lines(&mut text, radius, before, after) {
        Ok(()) => Ok(List::from_vec(text)),
        Err(_) => Err(OutOfMemory),
    }
}

fn add_lines(text: &mut Vec<u8>, radius: u32, before: u64, after: u64) -> Result<(), AllocError>
    ensures { OnOk result (text.new.items ≡ text.old.items ++ text_spec radius before after) }
{
    add(text, b"press check\n")?;
    add_line(text, b"radius ", radius as u64)?;
    add_line(text, b"before ", before)?;
    add_line(text, b"after ", after)?;
    add(text, b"end\n")
}

// Appends a line of these bytes and a number.
fn add_line(text: &mut Vec<u8>, before: &[u8], number: u64) -> Result<(), AllocError>
    ensures { OnOk result (text.new.items ≡ text.old.items ++ line (before.now ++ decimal number)) }
{
    add_number(text, before, number)?;
    add(text, b"\n")
}
