ghost use Rattle.std.specs.Prelude.{◌≡◌, ◌<◌, ◌≤◌, None};
ghost use Rattle.band_claims.specs.Seating.{Seats};
ghost use Rattle.page_model.specs.Bands.{pieces_of};

use crate::expected::is_whole;
use crate::tables::{bands_of, table, two_tiles};
use band_claims::{Maker, Pass, Shared};
use band_pieces::{Scratch, are_all_done, finish_alone};
use page_model::page::Page;
use page_model::parts::OutOfMemory;
use std::alloc::Global;
use std::test::Fail;

/// Claims a piece and makes it.
fn make_piece(
    shared: &Shared,
    pass: &mut Pass,
    page: &Page,
    scratch: &mut Scratch,
    piece: u32,
) -> bool
    requires page { page.now ≡ shared.now.table_key.page.value }
    requires scratch { scratch.old.layout ≡ shared.now.table_key.layout }
    requires pass { Seats shared.now pass.old }
    requires piece { piece < pieces_of shared.now.table_key.layout.bands }
    requires idle { pass.old.view.stored ≡ None }
    ensures scratch { scratch.new ≡ scratch.old }
    ensures pass { Seats shared.now pass.new }
    ensures idle { pass.new.view.stored ≡ None }
{
    if !shared.claim(pass, piece) {
        return false;
    }
    scratch.fill(page, shared, pass, piece);
    shared.finish(pass);
    true
}

/// Makes the first `count` pieces.
fn make_first(
    shared: &Shared,
    pass: &mut Pass,
    page: &Page,
    scratch: &mut Scratch,
    count: u32,
) -> bool
    requires page { page.now ≡ shared.now.table_key.page.value }
    requires scratch { scratch.old.layout ≡ shared.now.table_key.layout }
    requires pass { Seats shared.now pass.old }
    requires count { count < pieces_of shared.now.table_key.layout.bands }
    requires idle { pass.old.view.stored ≡ None }
    ensures scratch { scratch.new ≡ scratch.old }
    ensures pass { Seats shared.now pass.new }
    ensures idle { pass.new.view.stored ≡ None }
{
    let mut all = true;
    for piece in 0..count {
        all = make_piece(shared, pass, page, scratch, piece) && all;
    }
    all
}

/// What becomes of a table that was left with `done` pieces done and the next one claimed by a pass that was let go,
/// and then finished alone: whether it was left so, and whether it is the whole page.
fn leave_at(
    shared: Shared,
    pass: Pass,
    page: &Page,
    scratch: &mut Scratch,
    done: u32,
) -> (bool, bool)
    requires page { page.now ≡ shared.table_key.page.value }
    requires scratch { scratch.old.layout ≡ shared.table_key.layout }
    requires pass { Seats shared pass }
    requires idle { pass.view.stored ≡ None }
    requires done { done < pieces_of shared.table_key.layout.bands }
{
    let mut pass = pass;
    let mut reader = shared.reader(&mut pass);
    let made = make_first(&shared, &mut pass, page, scratch, done);
    let (pass, mut other) = shared.split(pass);
    let claimed = shared.claim(&mut other, done);
    let _fits = shared.bands();
    let all = are_all_done(&shared, &mut reader);
    let mut closed = shared.close_all(pass);
    let was_left = made && claimed && !all && closed.state(done) == 1;
    finish_alone(&mut closed, page, scratch);
    (was_left, is_whole(&closed, page))
}

/// The same for the page of two tiles in bands of that height.
fn is_finished_from(alloc: Global, height: u32, done: u32) -> Result<(bool, bool), OutOfMemory> {
    if height < 1 || height > 4096 {
        return Ok((false, false));
    }
    let page = two_tiles(alloc)?;
    let bands = bands_of(&page, height);
    if done >= 4 * bands.count {
        return Ok((false, false));
    }
    let mut scratch = Scratch::new(alloc, &page, &bands)?;
    let (shared, pass) = table(alloc, &page, &bands)?;
    Ok(leave_at(shared, pass, &page, &mut scratch, done))
}

#[test]
fn a_table_left_at_any_phase_is_finished_alone(rt: HostRuntime) -> Result<(), Fail> {
    for (height, done) in [
        (3, 0),
        (3, 2),
        (3, 3),
        (3, 4),
        (3, 6),
        (3, 7),
        (3, 9),
        (3, 11),
        (1, 0),
        (1, 13),
        (1, 22),
        (1, 31),
        (64, 2),
        (64, 3),
    ] {
        let whole = is_finished_from(rt.alloc(), height, done).or(Err("memory"))?;
        assert!(rt; whole == (true, true), "{height} {done}");
    }
    Ok(())
}
