// Pairs of neighbouring samples in one zone, many at a time: those of a row and their right neighbours, or those of a
// row and the samples below them. The planes are read one after the other, each by slices of its rows.

ghost use Rattle.std.specs.Prelude.{◌≡◌, ◌<◌, ◌≤◌, ◌+◌, ◌*◌, ◌-◌, ◌&&◌, ◌||◌, not, nat_le, true, false, ℕ, IfSome, length, slice_index, slice_index_or};
ghost use Rattle.edge_rule.specs.Pairs.{along, falls_by, pair_decides};
ghost use Rattle.page_model.specs.declared.parts.At.{At as Sample};
ghost use Rattle.page_model.specs.Apart.{falls};
ghost use Rattle.page_model.specs.Density.{shut, shuts};
ghost use Rattle.page_model.specs.Page.{InPage, height, ink_at, plates, tint, width};
ghost use Rattle.page_model.specs.Planes.{tints_of};
ghost use Rattle.lists.specs.Words.{any_below};

use neutral_density::is_shut;
use page_model::bounds::{MOST_MAXVAL, SCALE};
use page_model::page::Page;
use page_model::parts::At;

/// The number of pairs of a block.
const BLOCK: usize = 32;

/// The least difference of plate c, in tints, that is a step in the zone; `None` where no difference is.
fn least_step(page: &Page, zone: u32, c: u32) -> Option<u16>
    requires zone { zone < length page.now.zones }
    requires plate { c < plates page.now }
    ensures falls { (p q : Sample) → InPage page.now p → InPage page.now q
        → falls page.now zone p q c ≡ falls_by result (tint page.now c p) (tint page.now c q) }
    ensures some { IfSome result (λ step. 1 ≤ step) }
{
    let _valid = page.plates();
    let limit = u64::from(page.step_limit(zone, c)) * u64::from(page.maxval());
    let least = limit.div_ceil(u64::from(SCALE)).max(1);
    if page.ink(c).kind.counts() && least <= u64::from(MOST_MAXVAL) {
        Some(least as u16)
    } else {
        None
    }
}

/// The tints of plate c.
#[tactic(auto, using(crate::proofs::PairLemmas::long_plane))]
fn plane_tints<'a>(page: &'a Page, c: u32) -> &'a [u16]
    requires plate { c < plates page.now }
    ensures tints { result.now ≡ tints_of page.now.planes c }
    ensures len { length result.now ≡ width page.now * height page.now }
{
    let planes = page.planes().as_slice();
    planes[c as usize].tints.as_slice()
}

/// Returns `items[start..start + count]`.
fn part_of<'a>(items: &'a [u16], start: usize, count: usize) -> &'a [u16]
    requires inside { start + count ≤ length items.now }
    ensures len { length result.now ≡ count }
    ensures each { (k : ℕ) → k < count
        → slice_index result.now k ≡ slice_index items.now (start + k) }
{
    &items[start..start + count]
}

/// The tints of plate c at `count` samples of a row, from p on.
fn tints_from<'a>(page: &'a Page, c: u32, p: At, count: usize) -> &'a [u16]
    requires plate { c < plates page.now }
    requires row { p.y < height page.now }
    requires inside { p.x + count ≤ width page.now }
    ensures len { length result.now ≡ count }
    ensures each { (k : ℕ) → k < count → slice_index result.now k ≡ tint page.now c (along p k) }
{
    let start = p.y as usize * page.width() as usize + p.x as usize;
    part_of(plane_tints(page, c), start, count)
}

/// Marks in `fallen` where the tint falls by at least the step, and in `risen` where it rises by as much.
fn note_each(here: &[u16], there: &[u16], step: u16, fallen: &mut [bool], risen: &mut [bool])
    requires there { length there.now ≡ length here.now }
    requires fallen { length fallen.old ≡ length here.now }
    requires risen { length risen.old ≡ length here.now }
    ensures fallen_len { length fallen.new ≡ length fallen.old }
    ensures risen_len { length risen.new ≡ length risen.old }
    ensures fallen { (k : ℕ) → k < length here.now
        → slice_index_or fallen.new k false
        ≡ (slice_index_or fallen.old k false
        || nat_le step (slice_index here.now k - slice_index there.now k)) }
    ensures risen { (k : ℕ) → k < length here.now
        → slice_index_or risen.new k false
        ≡ (slice_index_or risen.old k false
        || nat_le step (slice_index there.now k - slice_index here.now k)) }
{
    for k in 0..here.len() {
        // all is worked out first, without a branch, so that many samples go at once
        let was_fallen = fallen[k];
        let was_risen = risen[k];
        let falls = step <= here[k].saturating_sub(there[k]);
        let rises = step <= there[k].saturating_sub(here[k]);
        fallen[k] = was_fallen || falls;
        risen[k] = was_risen || rises;
    }
}

/// Whether the tint falls or rises by at least the step at some pair. All pairs are read, without a branch, so that the
/// loop is vectorized.
fn has_step(here: &[u16], there: &[u16], step: u16) -> bool
    requires there { length there.now ≡ length here.now }
    ensures falls { result ≡ false → (k : ℕ) → k < length here.now
        → nat_le step (slice_index here.now k - slice_index there.now k) ≡ false }
    ensures rises { result ≡ false → (k : ℕ) → k < length here.now
        → nat_le step (slice_index there.now k - slice_index here.now k) ≡ false }
{
    let mut most = 0;
    for k in 0..here.len() {
        most = here[k].abs_diff(there[k]).max(most);
    }
    step <= most
}

/// Marks the falls and rises of a block. A whole block without a step is skipped; the last block, which may be shorter,
/// is not tested for that.
fn note_block(here: &[u16], there: &[u16], step: u16, fallen: &mut [bool], risen: &mut [bool])
    requires step { 1 ≤ step }
    requires there { length there.now ≡ length here.now }
    requires fallen { length fallen.old ≡ length here.now }
    requires risen { length risen.old ≡ length here.now }
    ensures fallen_len { length fallen.new ≡ length fallen.old }
    ensures risen_len { length risen.new ≡ length risen.old }
    ensures fallen { (k : ℕ) → k < length here.now
        → slice_index_or fallen.new k false
        ≡ (slice_index_or fallen.old k false
        || nat_le step (slice_index here.now k - slice_index there.now k)) }
    ensures risen { (k : ℕ) → k < length here.now
        → slice_index_or risen.new k false
        ≡ (slice_index_or risen.old k false
        || nat_le step (slice_index there.now k - slice_index here.now k)) }
{
    if here.len() == BLOCK {
        // as long as it is known to be here, both loops are without a rest
        if has_step(here, there, step) {
            note_each(here, there, step, fallen, risen);
        }
    } else {
        note_each(here, there, step, fallen, risen);
    }
}

/// Marks the falls and rises block by block. Most tints that differ from their neighbours differ by less than a step.
fn note_blocks(here: &[u16], there: &[u16], step: u16, fallen: &mut [bool], risen: &mut [bool])
    requires step { 1 ≤ step }
    requires there { length there.now ≡ length here.now }
    requires fallen { length fallen.old ≡ length here.now }
    requires risen { length risen.old ≡ length here.now }
    ensures fallen_len { length fallen.new ≡ length fallen.old }
    ensures risen_len { length risen.new ≡ length risen.old }
    ensures fallen { (k : ℕ) → k < length here.now
        → slice_index_or fallen.new k false
        ≡ (slice_index_or fallen.old k false
        || nat_le step (slice_index here.now k - slice_index there.now k)) }
    ensures risen { (k : ℕ) → k < length here.now
        → slice_index_or risen.new k false
        ≡ (slice_index_or risen.old k false
        || nat_le step (slice_index there.now k - slice_index here.now k)) }
{
    let mut at = 0;
    while at < here.len() {
        let end = at + BLOCK.min(here.len() - at);
        note_block(
            &here[at..end],
            &there[at..end],
            step,
            &mut fallen[at..end],
            &mut risen[at..end],
        );
        at = end;
    }
}

/// Whether two rows of tints are the same.
fn are_same(one: &[u16], other: &[u16]) -> bool
    ensures { result ≡ true → one.now ≡ other.now }
{
    one == other
}

/// Marks where the tint falls by at least the step, and where it rises by as much. Most rows of a page equal their
/// neighbours, and are skipped.
fn note_both(here: &[u16], there: &[u16], step: u16, fallen: &mut [bool], risen: &mut [bool])
    requires step { 1 ≤ step }
    requires there { length there.now ≡ length here.now }
    requires fallen { length fallen.old ≡ length here.now }
    requires risen { length risen.old ≡ length here.now }
    ensures fallen_len { length fallen.new ≡ length fallen.old }
    ensures risen_len { length risen.new ≡ length risen.old }
    ensures fallen { (k : ℕ) → k < length here.now
        → slice_index_or fallen.new k false
        ≡ (slice_index_or fallen.old k false
        || nat_le step (slice_index here.now k - slice_index there.now k)) }
    ensures risen { (k : ℕ) → k < length here.now
        → slice_index_or risen.new k false
        ≡ (slice_index_or risen.old k false
        || nat_le step (slice_index there.now k - slice_index here.now k)) }
{
    if !are_same(here, there) {
        note_blocks(here, there, step, fallen, risen);
    }
}

/// Marks at which pairs plate c falls by a step, and at which it rises by one.
fn note_steps(page: &Page, zone: u32, c: u32, p: At, q: At, fallen: &mut [bool], risen: &mut [bool])
    requires zone { zone < length page.now.zones }
    requires plate { c < plates page.now }
    requires p_row { p.y < height page.now }
    requires q_row { q.y < height page.now }
    requires p_inside { p.x + length fallen.old ≤ width page.now }
    requires q_inside { q.x + length fallen.old ≤ width page.now }
    requires risen { length risen.old ≡ length fallen.old }
    ensures fallen { (k : ℕ) → k < length fallen.old
        → slice_index_or fallen.new k false
        ≡ (slice_index_or fallen.old k false || falls page.now zone (along p k) (along q k) c) }
    ensures risen { (k : ℕ) → k < length fallen.old
        → slice_index_or risen.new k false
        ≡ (slice_index_or risen.old k false || falls page.now zone (along q k) (along p k) c) }
    ensures fallen_len { length fallen.new ≡ length fallen.old }
    ensures risen_len { length risen.new ≡ length fallen.old }
{
    match least_step(page, zone, c) {
        Some(step) => {
            let here = tints_from(page, c, p, fallen.len());
            let there = tints_from(page, c, q, fallen.len());
            note_both(here, there, step, fallen, risen);
        }
        None => {}
    }
}

/// Finds at which pairs some plate falls by a step, and at which some plate rises by one.
fn find_steps(page: &Page, zone: u32, p: At, q: At, fallen: &mut [bool], risen: &mut [bool])
    requires zone { zone < length page.now.zones }
    requires p_row { p.y < height page.now }
    requires q_row { q.y < height page.now }
    requires p_inside { p.x + length fallen.old ≤ width page.now }
    requires q_inside { q.x + length fallen.old ≤ width page.now }
    requires risen { length risen.old ≡ length fallen.old }
    ensures fallen { (k : ℕ) → k < length fallen.old
        → slice_index_or fallen.new k false
        ≡ any_below (falls page.now zone (along p k) (along q k)) (plates page.now) }
    ensures risen { (k : ℕ) → k < length fallen.old
        → slice_index_or risen.new k false
        ≡ any_below (falls page.now zone (along q k) (along p k)) (plates page.now) }
    ensures fallen_len { length fallen.new ≡ length fallen.old }
    ensures risen_len { length risen.new ≡ length fallen.old }
{
    fallen.fill(false);
    risen.fill(false);
    for c in 0..page.plates() {
        note_steps(page, zone, c, p, q, fallen, risen);
    }
}

/// Whether the ink of plate c shuts the samples that it covers.
fn ink_shuts(page: &Page, c: u32) -> bool
    requires { c < plates page.now }
    ensures { result ≡ shuts (ink_at page.now c).kind }
{
    page.ink(c).kind.shuts()
}

/// Whether some ink of the page shuts the samples that it covers.
fn some_ink_shuts(page: &Page) -> bool
    ensures { result ≡ any_below (λ c. shuts (ink_at page.now c).kind) (plates page.now) }
{
    let mut any = false;
    for c in 0..page.plates() {
        any = any || ink_shuts(page, c);
    }
    any
}

/// Keeps those pairs at which some plate falls and some plate rises.
fn keep_risen(fallen: &mut [bool], risen: &[bool])
    requires { length risen.now ≡ length fallen.old }
    ensures len { length fallen.new ≡ length fallen.old }
    ensures each { (k : ℕ) → k < length fallen.old
        → slice_index_or fallen.new k false
        ≡ (slice_index_or fallen.old k false && slice_index_or risen.now k false) }
{
    for k in 0..fallen.len() {
        let falls = fallen[k];
        let rises = risen[k];
        fallen[k] = falls & rises;
    }
}

/// Keeps the pairs with both samples open.
fn keep_open(page: &Page, p: At, q: At, kept: &mut [bool])
    requires p_row { p.y < height page.now }
    requires q_row { q.y < height page.now }
    requires p_inside { p.x + length kept.old ≤ width page.now }
    requires q_inside { q.x + length kept.old ≤ width page.now }
    ensures len { length kept.new ≡ length kept.old }
    ensures each { (k : ℕ) → k < length kept.old
        → slice_index_or kept.new k false
        ≡ (slice_index_or kept.old k false
        && (not (shut page.now (along p k)) && not (shut page.now (along q k)))) }
{
    let _valid = page.plates();
    for k in 0..kept.len() {
        let one = At {
            x: p.x + k as u32,
            y: p.y,
        };
        let two = At {
            x: q.x + k as u32,
            y: q.y,
        };
        kept[k] = kept[k] && !is_shut(page, one) && !is_shut(page, two);
    }
}

/// Keeps the pairs with both samples open. Where no ink of the page shuts samples, none is read.
fn keep_unshut(page: &Page, p: At, q: At, kept: &mut [bool])
    requires p_row { p.y < height page.now }
    requires q_row { q.y < height page.now }
    requires p_inside { p.x + length kept.old ≤ width page.now }
    requires q_inside { q.x + length kept.old ≤ width page.now }
    ensures len { length kept.new ≡ length kept.old }
    ensures each { (k : ℕ) → k < length kept.old
        → slice_index_or kept.new k false
        ≡ (slice_index_or kept.old k false
        && (not (shut page.now (along p k)) && not (shut page.now (along q k)))) }
{
    if some_ink_shuts(page) {
        keep_open(page, p, q, kept);
    }
}

/// Writes to `decided`, for each k, whether a trap may be made between samples p + k and q + k of their rows, which all
/// lie in the zone. `risen` is a buffer of the same length; its contents afterwards mean nothing.
pub fn decide_pairs(page: &Page, zone: u32, p: At, q: At, decided: &mut [bool], risen: &mut [bool])
    requires zone { zone < length page.now.zones }
    requires p_row { p.y < height page.now }
    requires q_row { q.y < height page.now }
    requires p_inside { p.x + length decided.old ≤ width page.now }
    requires q_inside { q.x + length decided.old ≤ width page.now }
    requires risen { length risen.old ≡ length decided.old }
    ensures each { (k : ℕ) → k < length decided.old
        → slice_index_or decided.new k false ≡ pair_decides page.now zone (along p k) (along q k) }
    ensures len { length decided.new ≡ length decided.old }
    ensures risen_len { length risen.new ≡ length decided.old }
{
    if page.params(zone).enabled {
        find_steps(page, zone, p, q, decided, risen);
        keep_risen(decided, risen);
        keep_unshut(page, p, q, decided);
    } else {
        decided.fill(false);
    }
}
