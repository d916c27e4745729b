ghost use Rattle.std.specs.Prelude.{◌≡◌, ℕ, ◌+◌, ◌<◌, ◌≤◌, All, length, IsTrue, false, None};
ghost use Rattle.band_claims.specs.Seating.{Seats};
ghost use Rattle.band_claims.specs.Views.{IsFair, Lost};
ghost use Rattle.page_model.specs.Bands.{pieces_of};
ghost use Rattle.band_claims.specs.Shares.{SameShare};
ghost use Rattle.band_claims.specs.Accounts.{IsAccounted, Publishes, Recalls, Made};

use crate::gate::Gate;
use crate::maker::Maker;
use crate::{Pass, Shared};
use band_core::needs::pieces;
use page_model::page::Page;
use std::thread;
use std::thread::Threads;

// Claims the piece and makes it, if it can.
fn visit<M: Maker, G: Gate>(
    shared: &Shared,
    pass: &mut Pass,
    page: &Page,
    maker: &mut M,
    gate: &G,
    piece: u32,
) -> bool
    requires page { page.now ≡ shared.now.table_key.page.value }
    requires maker { M.serves maker.old shared.now.table_key }
    requires pass { Seats shared.now pass.old }
    requires piece { piece < pieces_of shared.now.table_key.layout.bands }
    requires idle { pass.old.view.stored ≡ None }
    ensures maker { M.serves maker.new shared.now.table_key }
    ensures workspace { M.workspace maker.new ≡ M.workspace maker.old }
    ensures pass { Seats shared.now pass.new }
    ensures made { IsTrue result → Made piece pass.old.view pass.new.view }
    ensures fair { IsTrue result
        → IsFair (pieces_of shared.now.table_key.layout.bands) pass.new.view }
    ensures lost { result ≡ false
        → Lost shared.now.table_key.layout.bands piece pass.old.view pass.new.view }
{
    if !shared.claim(pass, piece) {
        return false;
    }
    gate.claimed(pass, piece);
    maker.fill(page, shared, pass, piece);
    shared.finish(pass);
    true
}

// One round through the pieces in order: claims and makes those that it can. Returns whether it made one.
fn walk<M: Maker, G: Gate>(
    shared: &Shared,
    pass: &mut Pass,
    page: &Page,
    maker: &mut M,
    gate: &G,
) -> bool
    requires page { page.now ≡ shared.now.table_key.page.value }
    requires maker { M.serves maker.old shared.now.table_key }
    requires pass { Seats shared.now pass.old }
    requires idle { pass.old.view.stored ≡ None }
    ensures maker { M.serves maker.new shared.now.table_key }
    ensures workspace { M.workspace maker.new ≡ M.workspace maker.old }
    ensures pass { Seats shared.now pass.new }
    ensures idle { pass.new.view.stored ≡ None }
    ensures published { Publishes pass.old.view pass.new.view }
    ensures reported { Recalls pass.old.view pass.new.view }
    ensures share { pass.new.view.share ≡ pass.old.view.share }
    ensures few { IsTrue result
        → length pass.new.view.published ≤ pieces_of shared.now.table_key.layout.bands }
    ensures more { IsTrue result
        → length pass.old.view.published + 1 ≤ length pass.new.view.published }
    ensures accounted { result ≡ false → (i : ℕ) → i < pieces_of shared.now.table_key.layout.bands
        → IsAccounted shared.now.table_key.layout.bands pass.new.view i }
{
    let mut won = false;
    for piece in 0..pieces(shared.bands()) {
        if visit(shared, pass, page, maker, gate, piece) {
            won = true;
        }
    }
    won
}

/// Goes through the pieces round after round, claims and makes those that it can, and ends after a round without a
/// claim. Each piece is then accounted for in the pass: it was published or seen done, or `looked` shows a need of it
/// that was not done or that it was not free. What the pass was told before, it still tells, and it keeps its share.
/// The maker has the memory that it had.
pub fn work<M: Maker, G: Gate>(
    shared: &Shared,
    pass: Pass,
    page: &Page,
    maker: &mut M,
    gate: &G,
) -> Pass
    requires page { page.now ≡ shared.now.table_key.page.value }
    requires maker { M.serves maker.old shared.now.table_key }
    requires pass { Seats shared.now pass }
    requires idle { pass.view.stored ≡ None }
    ensures maker { M.serves maker.new shared.now.table_key }
    ensures workspace { M.workspace maker.new ≡ M.workspace maker.old }
    ensures pass { Seats shared.now result }
    ensures idle { result.view.stored ≡ None }
    ensures published { Publishes pass.view result.view }
    ensures reported { Recalls pass.view result.view }
    ensures share { result.view.share ≡ pass.view.share }
    ensures accounted { (i : ℕ) → i < pieces_of shared.now.table_key.layout.bands
        → IsAccounted shared.now.table_key.layout.bands result.view i }
{
    let mut pass = pass;
    let mut won = true;
    while won {
        won = walk(shared, &mut pass, page, maker, gate);
    }
    pass
}

/// Runs `work` once for each maker, each on a thread of its own, and joins their passes. It waits only for its own
/// workers; where a thread can't be started the caller does its work. The pass that comes back has the whole share that
/// was given, so no worker's pass is lost.
pub fn work_many<R: Threads + Sync, M: Maker + Send, G: Gate + Sync>(
    rt: &R,
    shared: &Shared,
    pass: Pass,
    page: &Page,
    makers: &mut [M],
    gate: &G,
) -> Pass
    requires page { page.now ≡ shared.now.table_key.page.value }
    requires makers { All (λ m. M.serves m shared.now.table_key) makers.old }
    requires some { 1 ≤ length makers.old }
    requires pass { Seats shared.now pass }
    requires idle { pass.view.stored ≡ None }
    ensures pass { Seats shared.now result }
    ensures idle { result.view.stored ≡ None }
    ensures published { Publishes pass.view result.view }
    ensures reported { Recalls pass.view result.view }
    ensures share { SameShare pass.view.share result.view.share }
    ensures accounted { (i : ℕ) → i < pieces_of shared.now.table_key.layout.bands
        → IsAccounted shared.now.table_key.layout.bands result.view i }
{
    let count = makers.len();
    if count == 1 {
        return work(shared, pass, page, &mut makers[0], gate);
    }
    let half = count / 2;
    let (one, two) = shared.split(pass);
    let (left, right) = makers.split_at_mut(half);
    let (one, two) = thread::join(
        rt,
        move || -> Pass
            requires page { page.now ≡ shared.now.table_key.page.value }
            requires makers { All (λ m. M.serves m shared.now.table_key) left.now }
            requires some { 1 ≤ length left.now }
            requires pass { Seats shared.now one }
            requires idle { one.view.stored ≡ None }
            ensures pass { Seats shared.entry.now result }
            ensures idle { result.view.stored ≡ None }
            ensures published { Publishes one.view result.view }
            ensures reported { Recalls one.view result.view }
            ensures share { SameShare one.view.share result.view.share }
            ensures accounted { (i : ℕ) → i < pieces_of shared.entry.now.table_key.layout.bands
                → IsAccounted shared.entry.now.table_key.layout.bands result.view i }
        { work_many(rt, shared, one, page, left, gate) },
        move || -> Pass
            requires page { page.now ≡ shared.now.table_key.page.value }
            requires makers { All (λ m. M.serves m shared.now.table_key) right.now }
            requires some { 1 ≤ length right.now }
            requires pass { Seats shared.now two }
            requires idle { two.view.stored ≡ None }
            ensures pass { Seats shared.entry.now result }
            ensures idle { result.view.stored ≡ None }
            ensures share { SameShare two.view.share result.view.share }
            ensures accounted { (i : ℕ) → i < pieces_of shared.entry.now.table_key.layout.bands
                → IsAccounted shared.entry.now.table_key.layout.bands result.view i }
        { work_many(rt, shared, two, page, right, gate) },
    );
    shared.join(one, two)
}
