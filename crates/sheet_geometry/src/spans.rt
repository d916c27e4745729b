// How a side of a sheet is cut.

ghost use Rattle.std.specs.Prelude.{◌≡◌, ◌≢◌, ℕ, ◌*◌, ◌%◌, ◌<◌, ◌≤◌, false, true, IfOk};
ghost use Rattle.page_model.specs.Limits.{most_resolution, scale};
ghost use Rattle.sheet_geometry.specs.Spans.{AreSpans, IsEvenRuler, IsRuler, IsSpan, IsWindow, even_wide};

use lists::names::OutOfMemory;
use std::alloc::Global;

/// How a side is cut, all in samples: the length of the side; the halo, by which a window goes on beyond its core; the
/// step, of which the places of windows are multiples, counted from the side's end where `from_end` is true; and the
/// most samples of a window.
#[derive(Clone, Copy, Drop)]
pub struct Ruler {
    pub side: u32,
    pub halo: u32,
    pub step: u32,
    pub most: u32,
    pub from_end: bool,
}

/// The samples of a window along a side: the first of them on the side, and their number; and of its core, how many of
/// the window's samples are before it, and its number.
#[derive(Clone, Copy, Drop)]
pub struct Span {
    pub from: u32,
    pub wide: u32,
    pub skip: u32,
    pub core: u32,
}

/// The least number of samples that is a whole number of ten-thousandths of a point, at a resolution in samples per
/// inch: the resolution over its greatest common divisor with 720,000.
pub fn step_of(resolution: u32) -> u32
    requires some { 1 ≤ resolution }
    requires fine { resolution ≤ most_resolution }
    ensures some { 1 ≤ result }
    ensures few { result ≤ resolution }
    ensures exact { (72 * scale * result) % resolution ≡ 0 }
    ensures least { (k : ℕ) → 1 ≤ k → k < result → (72 * scale * k) % resolution ≢ 0 }
{
    for step in 1..resolution {
        if 720_000 * u64::from(step) % u64::from(resolution) == 0 {
            return step;
        }
    }
    resolution
}

/// The widest span whose core begins at sample `at` of the side.
pub fn span_at(ruler: &Ruler, at: u32) -> Span
    requires ruler { IsRuler ruler.now }
    requires inside { at < ruler.now.side }
    ensures { IsSpan ruler.now at result }
{
    if ruler.from_end {
        span_from_end(ruler, at)
    } else {
        span_from_start(ruler, at)
    }
}

// If steps are counted from the side's first sample, the window begins at a step.
fn span_from_start(ruler: &Ruler, at: u32) -> Span
    requires ruler { IsRuler ruler.now }
    requires inside { at < ruler.now.side }
    requires way { ruler.now.from_end ≡ false }
    ensures { IsSpan ruler.now at result }
{
    let from = at.saturating_sub(ruler.halo) / ruler.step * ruler.step;
    let wide = ruler.most.min(ruler.side - from);
    span_of(ruler, at, from, wide)
}

// If they are counted from its last sample, the window ends before a step.
fn span_from_end(ruler: &Ruler, at: u32) -> Span
    requires ruler { IsRuler ruler.now }
    requires inside { at < ruler.now.side }
    requires way { ruler.now.from_end ≡ true }
    ensures { IsSpan ruler.now at result }
{
    let from = at.saturating_sub(ruler.halo);
    let rest = ruler.side - from;
    let after = rest.saturating_sub(ruler.most).div_ceil(ruler.step) * ruler.step;
    span_of(ruler, at, from, rest - after)
}

// The span of a window: its core ends with the side, or a halo before the window's end.
fn span_of(ruler: &Ruler, at: u32, from: u32, wide: u32) -> Span
    requires ruler { IsRuler ruler.now }
    requires window { IsWindow ruler.now at from wide }
    ensures span { IsSpan ruler.now at result }
    ensures wide { result.wide ≡ wide }
{
    let skip = at - from;
    let core = if from + wide < ruler.side {
        wide - skip - ruler.halo.max(1)
    } else {
        wide - skip
    };
    Span {
        from,
        wide,
        skip,
        core,
    }
}

/// The spans of a side, from its first sample to its last.
pub fn spans_of(alloc: Global, ruler: &Ruler) -> Result<Vec<Span>, OutOfMemory>
    requires { IsRuler ruler.now }
    ensures { IfOk result (λ spans. AreSpans ruler.now 0 spans.items ruler.now.side) }
{
    let mut spans = Vec::new(alloc);
    let mut done = 0;
    while done < ruler.side {
        let span = span_at(ruler, done);
        if spans.push(span).is_err() {
            return Err(OutOfMemory);
        }
        done += span.core;
    }
    Ok(spans)
}

/// The number of samples of each window of a side if all have the same: the whole side, or at most `most`, and less
/// than a step below it.
pub fn even_wide_of(ruler: &Ruler) -> u32
    requires { IsEvenRuler ruler.now }
    ensures value { result ≡ even_wide ruler.now }
    ensures some { 1 ≤ result }
    ensures inside { result ≤ ruler.now.side }
    ensures small { result ≤ ruler.now.most }
{
    let over = ruler.side.saturating_sub(ruler.most);
    ruler.side - over.div_ceil(ruler.step) * ruler.step
}

/// The span whose core begins at sample `at` of the side, of a window with as many samples as all others. The last one
/// begins early enough for that, however far before its core.
pub fn even_span_at(ruler: &Ruler, at: u32) -> Span
    requires ruler { IsEvenRuler ruler.now }
    requires inside { at < ruler.now.side }
    ensures span { IsSpan ruler.now at result }
    ensures wide { result.wide ≡ even_wide ruler.now }
{
    let wide = even_wide_of(ruler);
    let near = at.saturating_sub(ruler.halo) / ruler.step * ruler.step;
    span_of(ruler, at, near.min(ruler.side - wide), wide)
}
