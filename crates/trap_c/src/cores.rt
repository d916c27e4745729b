ghost use Rattle.std.specs.Prelude.{◌≡◌, ◌≤◌, ◌<◌, ◌*◌, ◌+◌, ◌++◌, ℕ, All, IfOk, length, take, drop};
ghost use Rattle.page_model.specs.Planes.{plane_at};
ghost use Rattle.trap_c.specs.Cores.{HasCoreTo, HaveCores, IsIn, IsRun, tint_run};
ghost use Rattle.trap_c.specs.Planes.{size};
ghost use Rattle.page_model.specs.Limits.{most_plates};

use crate::layout::Layout;
use crate::planes::{put_bytes_row, put_words_row};
use page_model::parts::PlaneList;
use sheet_geometry::cuts::Cut;

/// Writes the core of each plane to samples of two bytes.
pub fn put_word_cores(planes: &PlaneList, layout: Layout, core: &Cut, samples: &mut [u16])
    requires layout { layout.width ≤ layout.step }
    requires all { length samples.old ≡ length planes.now * layout.height * layout.step }
    requires few { length planes.now ≤ most_plates }
    requires core { IsIn layout core.now }
    requires full { (c : ℕ) → c < length planes.now
        → length (plane_at planes.now c).tints ≡ size layout }
    ensures { HaveCores layout core.now planes.now samples.old samples.new (length planes.now) }
{
    let all = planes.as_slice();
    for c in 0..all.len() {
        put_word_core(all[c].tints.as_slice(), layout, core, c, samples);
    }
}

// Writes the core of plane c to its rows.
fn put_word_core(tints: &[u16], layout: Layout, core: &Cut, c: usize, samples: &mut [u16])
    requires layout { layout.width ≤ layout.step }
    requires few { c < most_plates }
    requires core { IsIn layout core.now }
    requires inside { (c * layout.height + layout.height) * layout.step ≤ length samples.old }
    requires full { length tints.now ≡ size layout }
    ensures { HasCoreTo layout core.now tints.now samples.old samples.new c core.now.height }
{
    let first = c * layout.height as usize + core.top as usize;
    for y in 0..core.height as usize {
        let row = core_row(tints, layout, core, y);
        put_words_row(
            row,
            (first + y) * layout.step as usize + core.left as usize,
            samples,
        );
    }
}

/// Writes the core of each plane to samples of one byte.
pub fn put_byte_cores(planes: &PlaneList, layout: Layout, core: &Cut, samples: &mut [u8])
    requires layout { layout.width ≤ layout.step }
    requires all { length samples.old ≡ length planes.now * layout.height * layout.step }
    requires few { length planes.now ≤ most_plates }
    requires core { IsIn layout core.now }
    requires full { (c : ℕ) → c < length planes.now
        → length (plane_at planes.now c).tints ≡ size layout }
    requires narrow { (c : ℕ) → c < length planes.now
        → All (λ t. t ≤ 255) (plane_at planes.now c).tints }
    ensures { HaveCores layout core.now planes.now samples.old samples.new (length planes.now) }
{
    let all = planes.as_slice();
    for c in 0..all.len() {
        put_byte_core(all[c].tints.as_slice(), layout, core, c, samples);
    }
}

// Writes the core of plane c to its rows.
fn put_byte_core(tints: &[u16], layout: Layout, core: &Cut, c: usize, samples: &mut [u8])
    requires layout { layout.width ≤ layout.step }
    requires few { c < most_plates }
    requires core { IsIn layout core.now }
    requires inside { (c * layout.height + layout.height) * layout.step ≤ length samples.old }
    requires full { length tints.now ≡ size layout }
    requires narrow { All (λ t. t ≤ 255) tints.now }
    ensures { HasCoreTo layout core.now tints.now samples.old samples.new c core.now.height }
{
    let first = c * layout.height as usize + core.top as usize;
    for y in 0..core.height as usize {
        let row = core_row(tints, layout, core, y);
        put_bytes_row(
            row,
            (first + y) * layout.step as usize + core.left as usize,
            samples,
        );
    }
}

// Row y of the core, out of a plane's tints.
fn core_row<'a>(tints: &'a [u16], layout: Layout, core: &Cut, y: usize) -> &'a [u16]
    requires core { IsIn layout core.now }
    requires row { y < core.now.height }
    requires full { length tints.now ≡ size layout }
    ensures { IsRun tints.now (tint_run layout core.now y) core.now.width result.now }
{
    let from = (core.top as usize + y) * layout.width as usize + core.left as usize;
    &tints[from..from + core.width as usize]
}
