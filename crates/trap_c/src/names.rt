ghost use Rattle.std.specs.Prelude.{◌≡◌, ◌++◌, ◌∷◌, [], ◌≤◌, IfOk, IsTrue, OnOk, length};
ghost use Rattle.std.specs.List.{list_all, list_any};
ghost use Rattle.std.specs.Str.{bytes_eq};
ghost use Rattle.plain_words.specs.Distinct.{are_distinct as distinct_spec};
ghost use Rattle.plain_words.specs.Names.{is_name as name_spec};
ghost use Rattle.trap_c.specs.Names.{names_in, are_names as names_spec};
ghost use Rattle.page_model.specs.Limits.{most_plates};

use lists::list::List;
use lists::names::{Name, NameList, OutOfMemory, same_name};
use page_model::bounds::MOST_PLATES;
use plain_words::names::is_name;
use std::alloc::Global;

/// The names in a text, separated by LF.
pub fn names_of(alloc: Global, text: &[u8]) -> Result<NameList, OutOfMemory>
    ensures { IfOk result (λ names. names ≡ names_in text.now) }
{
    let mut names: NameList = List::new(alloc);
    let mut name: Name = List::new(alloc);
    for byte in text {
        if *byte == b'\n' {
            push_name(&mut names, name)?;
            name = List::new(alloc);
        } else {
            push_byte(&mut name, *byte)?;
        }
    }
    push_name(&mut names, name)?;
    Ok(names)
}

fn push_name(names: &mut NameList, name: Name) -> Result<(), OutOfMemory>
    ensures { OnOk result (names.new ≡ names.old ++ name ∷ []) }
{
    match names.push(name) {
        Ok(()) => Ok(()),
        Err(_) => Err(OutOfMemory),
    }
}

fn push_byte(name: &mut Name, byte: u8) -> Result<(), OutOfMemory>
    ensures { OnOk result (name.new ≡ name.old ++ byte ∷ []) }
{
    match name.push(byte) {
        Ok(()) => Ok(()),
        Err(_) => Err(OutOfMemory),
    }
}

/// Whether these are 1 to 16 names of colorants, all different.
pub fn are_names(names: &[Name]) -> bool
    ensures value { result ≡ names_spec names.now }
    ensures some { IsTrue result → 1 ≤ length names.now }
    ensures few { IsTrue result → length names.now ≤ most_plates }
{
    1 <= names.len() && names.len() <= MOST_PLATES && are_each_names(names) && are_distinct(names)
}

fn are_each_names(names: &[Name]) -> bool
    ensures { result ≡ list_all name_spec names.now }
{
    names.iter().all(|name| is_name(name.as_slice()))
}

fn are_distinct(names: &[Name]) -> bool
    ensures { result ≡ distinct_spec names.now }
{
    match names {
        [first, rest @ ..] => !is_among(first.as_slice(), rest) && are_distinct(rest),
        [] => true,
    }
}

fn is_among(name: &[u8], names: &[Name]) -> bool
    ensures { result ≡ list_any (bytes_eq name.now) names.now }
{
    names.iter().any(|other| same_name(name, other.as_slice()))
}
