ghost use Rattle.std.specs.Prelude.{◌≡◌, ◌<◌, [], IfOk, Some, None, length};
ghost use Rattle.page_model.specs.Conditions.{IsInk, IsParts, IsPlane, IsZone};
ghost use Rattle.page_model.specs.Page.{width, height};
ghost use Rattle.band_claims.specs.Seating.{Seats};
ghost use Rattle.band_claims.specs.Views.{newcomer};
ghost use Rattle.band_tests.specs.OneColumn.{OneColumn};

use band_claims::{Pass, Reader, Shared};
use band_core::layout::Layout;
use lists::list::List;
use lists::memory::push;
use lists::names::OutOfMemory;
use page_model::bands::Bands;
use page_model::page::Page;
use page_model::parts::{Ink, InkKind, PageParts, Plane, TrapParams, Zone};
use std::alloc::Global;
use std::test::Fail;

/// A plate of one column and two rows, without ink.
fn blank(alloc: Global) -> Result<Plane, OutOfMemory>
    ensures plane { IfOk result IsPlane }
    ensures width { IfOk result (λ plane. plane.width ≡ 1) }
    ensures height { IfOk result (λ plane. plane.height ≡ 2) }
{
    match vec![in alloc; 0u16; 2] {
        Ok(tints) => Ok(Plane {
            width: 1,
            height: 2,
            maxval: 255,
            tints: List::from_vec(tints),
        }),
        Err(_) => Err(OutOfMemory),
    }
}

fn zone(alloc: Global) -> Zone
    ensures zone { IsZone result }
    ensures path { result.path ≡ [] }
{
    Zone {
        params: TrapParams::usual(),
        path: List::new(alloc),
        limits: List::new(alloc),
    }
}

fn parts(alloc: Global) -> Result<PageParts, OutOfMemory>
    ensures parts { IfOk result IsParts }
    ensures zones { IfOk result (λ parts. length parts.zones ≡ 1) }
    ensures width { IfOk result (λ parts. width parts ≡ 1) }
    ensures height { IfOk result (λ parts. height parts ≡ 2) }
{
    let mut planes = List::new(alloc);
    push(&mut planes, blank(alloc)?)?;
    let mut inks = List::new(alloc);
    let ink = Ink {
        name: List::new(alloc),
        density: 6_000,
        kind: InkKind::Normal,
    };
    push(&mut inks, ink)?;
    let mut zones = List::new(alloc);
    push(&mut zones, zone(alloc))?;
    Ok(PageParts {
        resolution: 72,
        planes,
        inks,
        zones,
    })
}

fn table(alloc: Global) -> Result<(Shared, Pass), OutOfMemory>
    ensures table_key { IfOk result (λ t. OneColumn t.0.table_key) }
    ensures seats { IfOk result (λ t. Seats t.0 t.1) }
    ensures new { IfOk result (λ t. t.1.view ≡ newcomer t.0.table_key) }
{
    let Ok(page) = Page::new(parts(alloc)?) else {
        return Err(OutOfMemory);
    };
    let bands = Bands::new(page.height(), 1, page.reach2());
    let layout = Layout::new(page.width(), page.plates(), &bands);
    Shared::new(alloc, &page, &bands, &layout)
}

/// Makes the zones of the band that the pass holds: one sample in zone 0.
fn make_zone(shared: &Shared, pass: &mut Pass, piece: u32)
    requires table_key { OneColumn shared.now.table_key }
    requires seats { Seats shared.now pass.old }
    requires piece { piece < 2 }
    requires stored { pass.old.view.stored ≡ Some piece }
    requires none_filled { pass.old.view.filled ≡ 0 }
    ensures seats { Seats shared.now pass.new }
    ensures idle { pass.new.view.stored ≡ None }
{
    shared.put_cell(pass, 1);
    shared.finish(pass);
}

/// Claims the zones of a band and makes them; false where the claim was lost.
fn claim_and_make(shared: &Shared, pass: &mut Pass, piece: u32) -> bool
    requires table_key { OneColumn shared.now.table_key }
    requires seats { Seats shared.now pass.old }
    requires piece { piece < 2 }
    requires idle { pass.old.view.stored ≡ None }
    ensures seats { Seats shared.now pass.new }
    ensures idle { pass.new.view.stored ≡ None }
{
    if shared.claim(pass, piece) {
        make_zone(shared, pass, piece);
        true
    } else {
        false
    }
}

/// The words of both bands' zones, where the pass finds them done.
fn both_zones(shared: &Shared, pass: &mut Pass) -> Option<[u64; 2]>
    requires table_key { OneColumn shared.now.table_key }
    requires seats { Seats shared.now pass.old }
    ensures seats { Seats shared.now pass.new }
    ensures stored { pass.new.view.stored ≡ pass.old.view.stored }
{
    if !shared.is_done(pass, 0) || !shared.is_done(pass, 1) {
        return None;
    }
    let mut words = [0; 2];
    shared.read_cells(pass, 0, &mut words);
    Some(words)
}

/// The word of the first band's zones, where a seat that reads alone finds them done.
fn read_zone_word(shared: &Shared, reader: &mut Reader) -> Option<u64>
    requires table_key { OneColumn shared.now.table_key }
    requires seats { Seats shared.now reader.old }
    ensures seats { Seats shared.now reader.new }
{
    if !shared.sees_done(reader, 0) {
        return None;
    }
    Some(shared.read_alone(reader, 0))
}

/// The first thing that is not as it should be, or nothing.
fn two_passes(shared: &Shared, pass: Pass) -> &'static str
    requires table_key { OneColumn shared.now.table_key }
    requires seats { Seats shared.now pass }
    requires idle { pass.view.stored ≡ None }
{
    let mut pass = pass;
    let mut reader = shared.reader(&mut pass);
    let (mut one, mut two) = shared.split(pass);
    if read_zone_word(shared, &mut reader).is_some() {
        return "a free piece is not done";
    }
    if !shared.claim(&mut one, 0) {
        return "a free piece is claimed";
    }
    if shared.claim(&mut two, 0) {
        return "a claimed piece is not claimed again";
    }
    if shared.claim(&mut two, 2) {
        return "edges wait for their zones";
    }
    if both_zones(shared, &mut two).is_some() {
        return "a claimed piece is not done";
    }
    make_zone(shared, &mut one, 0);
    if !shared.is_done(&mut two, 0) {
        return "what was published is seen";
    }
    if shared.claim(&mut two, 2) {
        return "edges wait for the zones of the next band";
    }
    if !claim_and_make(shared, &mut two, 1) {
        return "the other piece is free";
    }
    if both_zones(shared, &mut one) != Some([1, 1]) {
        return "both cells are read";
    }
    if read_zone_word(shared, &mut reader) != Some(1) {
        return "a reader reads what is done";
    }
    ""
}

/// The words of the two ZONES pieces and their cells of a table that was left half done, before and after it is
/// finished alone.
fn closed_words(shared: Shared, pass: Pass) -> Option<[[u64; 4]; 2]>
    requires table_key { OneColumn shared.table_key }
    requires seats { Seats shared pass }
    requires idle { pass.view.stored ≡ None }
{
    let (mut one, two) = shared.split(pass);
    if !claim_and_make(&shared, &mut one, 0) {
        return None;
    }
    let pass = shared.join(one, two);
    let mut closed = shared.close_all(pass);
    let before = [
        closed.state(0),
        closed.state(1),
        closed.cell(0),
        closed.cell(1),
    ];
    if before[1] == 2 {
        return None;
    }
    closed.set_cell(1, 1);
    closed.set_done(1);
    let after = [
        closed.state(0),
        closed.state(1),
        closed.cell(0),
        closed.cell(1),
    ];
    Some([before, after])
}

#[test]
fn two_passes_share_a_table(rt: HostRuntime) -> Result<(), Fail> {
    let (shared, pass) = table(rt.alloc()).or(Err("memory"))?;
    assert_eq!(rt; two_passes(&shared, pass), "");
    Ok(())
}

#[test]
fn a_table_left_half_done_is_finished_alone(rt: HostRuntime) -> Result<(), Fail> {
    let (shared, pass) = table(rt.alloc()).or(Err("memory"))?;
    assert_eq!(rt;
        closed_words(shared, pass),
        Some([[2, 0, 1, 0], [2, 2, 1, 1]])
    );
    Ok(())
}
