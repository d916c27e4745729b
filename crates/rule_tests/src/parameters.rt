use lists::list::List;
use page_model::limits::keep;
use page_model::parts::{Limit, NameList, TrapParams};
use std::alloc::Global;
use std::test::Fail;

/// The letters of a list of names of one letter each.
fn names(alloc: Global, letters: &[u8]) -> Result<NameList, Fail> {
    let mut names = List::new(alloc);
    for letter in letters {
        let mut name = List::new(alloc);
        name.push(*letter).or(Err("memory"))?;
        names.push(name).or(Err("memory"))?;
    }
    Ok(names)
}

fn limits(alloc: Global, limits: &[(u8, u32)]) -> Result<List<Limit>, Fail> {
    let mut made = List::new(alloc);
    for (letter, step) in limits {
        let mut name = List::new(alloc);
        name.push(*letter).or(Err("memory"))?;
        made.push(Limit { name, step: *step }).or(Err("memory"))?;
    }
    Ok(made)
}

#[test]
fn limits_of_other_colorants_are_dropped(rt: HostRuntime) -> Result<(), Fail> {
    for (kept, steps) in [
        (b"AC".as_slice(), [1, 3].as_slice()),
        (b"".as_slice(), [].as_slice()),
        (b"CBA".as_slice(), [1, 2, 3].as_slice()),
    ] {
        let mut list = limits(rt.alloc(), &[(b'A', 1), (b'B', 2), (b'C', 3)])?;
        keep(&mut list, &names(rt.alloc(), kept)?);
        assert_eq!(rt; list.len(), steps.len());
        for (limit, step) in list.as_slice().iter().zip(steps) {
            assert_eq!(rt; limit.step, *step);
        }
    }
    Ok(())
}

#[test]
fn usual_parameters_are_a_quarter_of_a_point(rt: HostRuntime) {
    assert_eq!(rt; TrapParams::usual().trap_width, 2_500);
}
