use lists::list::List;
use lists::names::{copy_name, same_name};
use std::alloc::Global;
use std::test::Fail;

// Appends two items; whether there was memory for them.
fn append_two(list: &mut List<u16>) -> bool {
    list.push(3).is_ok() && list.push(5).is_ok()
}

// What stands at the first three places, what the last item was, and how many are left without it.
fn take_last(list: &mut List<u16>) -> ([Option<u16>; 3], Option<u16>, usize) {
    let first = list.get(0).copied();
    let second = list.get(1).copied();
    let third = list.get(2).copied();
    let last = list.pop();
    ([first, second, third], last, list.len())
}

// Whether the list has one item, which is that once it is put there.
fn is_changed_to(list: &mut List<u16>, item: u16) -> bool {
    if list.len() != 1 {
        return false;
    }
    *list.item_mut(0) = item;
    list.as_slice() == [item].as_slice()
}

#[test]
fn lists_are_appended_to_and_taken_from(rt: HostRuntime) -> Result<(), Fail> {
    let mut list = List::new(rt.alloc());
    let appended = append_two(&mut list);
    let taken = take_last(&mut list);
    let changed = is_changed_to(&mut list, 7);
    assert!(rt; appended && taken == ([Some(3), Some(5), None], Some(5), 1) && changed);
    Ok(())
}

// Whether a copy of a name has its bytes, and not those of another.
fn is_copied(alloc: Global, name: &[u8], other: &[u8]) -> bool {
    match copy_name(alloc, name) {
        Ok(copy) => same_name(copy.as_slice(), name) && !same_name(copy.as_slice(), other),
        Err(_) => false,
    }
}

#[test]
fn a_copy_has_the_bytes_of_its_name(rt: HostRuntime) -> Result<(), Fail> {
    assert!(rt; is_copied(rt.alloc(), b"Cyan", b"Cya"));
    Ok(())
}
