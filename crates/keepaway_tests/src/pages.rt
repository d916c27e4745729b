// The sample page of white beside black with some cyan and magenta under it.

ghost use Rattle.std.specs.Prelude.{◌≡◌, ◌≤◌};

use keepaway::{RichBlack, cover_of, draw_plate};
use lists::list::List;
use lists::memory::vec_of;
use page_model::page::Page;
use page_model::parts::OutOfMemory;
use page_source::sample::sample_page;
use std::alloc::Global;
use std::test::Fail;

/// The new tints of the first plate, with black from a half of full ink on.
fn cyan_of(alloc: Global, page: &Page, width: u32) -> Result<Vec<u16>, OutOfMemory>
    requires { width ≤ 9000 }
{
    let (wide, tall) = (page.width() as usize, page.height() as usize);
    let _plates = page.plates();
    let _resolution = page.resolution();
    let rich = RichBlack {
        width,
        limit: 5000,
        spared: List::new(alloc),
    };
    let cover = cover_of(alloc, page, rich.limit)?;
    let mut row = vec_of(alloc, 0u16, wide)?;
    let mut out = vec_of(alloc, 9u16, wide * tall)?;
    draw_plate(
        page,
        &rich,
        &cover,
        0,
        row.as_mut_slice(),
        out.as_mut_slice(),
    );
    Ok(out)
}

/// Whether each row has cyan from this column on, and none before.
fn begins_at(tints: &[u16], column: usize) -> bool {
    tints.len() == 128
        && tints
            .iter()
            .enumerate()
            .all(|(k, tint)| (*tint == 64) == (column <= k % 16))
}

#[test]
fn cyan_is_drawn_back_under_black(rt: HostRuntime) -> Result<(), Fail> {
    let page = sample_page(rt.alloc(), 4, 16, 8).expect(&rt, "no page");
    for (width, column) in [
        (0, 8),
        (599, 8),
        (600, 9),
        (1799, 9),
        (1800, 10),
        (9000, 16),
    ] {
        let tints = cyan_of(rt.alloc(), &page, width).expect(&rt, "no memory");
        assert!(rt; begins_at(tints.as_slice(), column), "width {width}");
    }
    Ok(())
}
