ghost use Rattle.std.specs.Prelude.{◌≡◌, ◌<◌, ◌≤◌, length, find, option_copied, IfErr, IfOk, OnOk, Some, None};
ghost use Rattle.std.specs.Str.{bytes_eq};
ghost use Rattle.page_model.specs.Conditions.{IsParts, IsPage};
ghost use Rattle.page_model.specs.Faults.{difference, too_many, too_wide, page_fault};
ghost use Rattle.page_model.specs.Limits.{most_plates, most_reach};
ghost use Rattle.page_model.specs.Page.{plates, width, height, maxval, tint, ink_at, params_at, path_at, InPage, named_step, step_limit};
ghost use Rattle.page_model.specs.Reach.{page_reach};
ghost use Rattle.lists.specs.Words.{or_else, first_some};

use crate::bounds::{MOST_REACH, MOST_SAMPLES};
use crate::parts::{Ink, Limit, PageParts, PlaneList, TrapParams, VertexList};
use crate::reach::reach_at;
use lists::names::same_name;
use std::marker::Model;

/// A page: planes that agree in size and maxval, with an ink for each, and the zones. No zone reaches further than 256
/// half-samples, and all planes together have at most 160,000,000 samples.
#[derive(Drop)]
pub struct Page {
    parts: PageParts,
}

impl Model for Page {
    ghost use Rattle.page_model.specs.declared.parts.PageParts.{PageParts};

    ghost Value = { PageParts };

    ghost use Rattle.page_model.specs.Conditions.{IsPage};

    ghost view = { λ a. a.parts };

    ghost invariant = { λ a. IsPage a.parts };
}

/// Why parts do not make a page. Plates and zones are numbered from 0.
#[derive(Clone, Copy, Debug, Drop, PartialEq, Eq)]
pub enum PageFault {
    /// This plate's width or height is not that of plate 0.
    SizeDiffers(u32),
    /// This plate has the sides of plate 0, and another maxval.
    MaxvalDiffers(u32),
    /// All plates together have more than 160,000,000 samples.
    TooManySamples,
    /// This zone is enabled, and reaches further than 256 half-samples.
    ReachTooWide(u32),
}

fn difference_at(parts: &PageParts, c: u32) -> Option<PageFault>
    requires some { 1 ≤ plates parts.now }
    requires plate { c < plates parts.now }
    ensures { result ≡ difference parts.now c }
{
    let planes = parts.planes.as_slice();
    let first = &planes[0];
    let plane = &planes[c as usize];
    if plane.width == first.width && plane.height == first.height {
        if plane.maxval == first.maxval {
            None
        } else {
            Some(PageFault::MaxvalDiffers(c))
        }
    } else {
        Some(PageFault::SizeDiffers(c))
    }
}

/// The fault of the first plate that differs from plate 0.
pub fn first_difference(parts: &PageParts) -> Option<PageFault>
    requires some { 1 ≤ plates parts.now }
    requires few { plates parts.now ≤ most_plates }
    ensures { result ≡ first_some (difference parts.now) (plates parts.now) }
{
    let mut found = None;
    for c in 0..parts.planes.len() as u32 {
        found = earlier(found, difference_at(parts, c));
    }
    found
}

fn earlier(found: Option<PageFault>, later: Option<PageFault>) -> Option<PageFault>
    ensures { result ≡ or_else found later }
{
    match found {
        Some(fault) => Some(fault),
        None => later,
    }
}

fn excess(parts: &PageParts) -> Option<PageFault>
    requires { IsParts parts.now }
    ensures { result ≡ too_many parts.now }
{
    let planes = parts.planes.as_slice();
    let first = &planes[0];
    let samples = u64::from(first.width) * u64::from(first.height) * planes.len() as u64;
    if samples > MOST_SAMPLES {
        Some(PageFault::TooManySamples)
    } else {
        None
    }
}

fn width_fault(parts: &PageParts, z: u32) -> Option<PageFault>
    requires parts { IsParts parts.now }
    requires zone { z < length parts.now.zones }
    ensures { result ≡ too_wide parts.now z }
{
    if reach_at(parts, z) > MOST_REACH {
        Some(PageFault::ReachTooWide(z))
    } else {
        None
    }
}

fn first_wide(parts: &PageParts) -> Option<PageFault>
    requires { IsParts parts.now }
    ensures { result ≡ first_some (too_wide parts.now) (length parts.now.zones) }
{
    let mut found = None;
    for z in 0..parts.zones.len() as u32 {
        found = earlier(found, width_fault(parts, z));
    }
    found
}

fn fault_of(parts: &PageParts) -> Option<PageFault>
    requires { IsParts parts.now }
    ensures { result ≡ page_fault parts.now }
{
    earlier(
        earlier(first_difference(parts), excess(parts)),
        first_wide(parts),
    )
}

impl Page {
    /// Makes a page of these parts, or returns their first fault: that of the first plate that differs from plate 0,
    /// then that of the number of samples, then that of the first zone that reaches too far. An error gives the parts
    /// back unchanged.
    pub fn new(parts: PageParts) -> Result<Page, (PageFault, PageParts)>
        requires { IsParts parts }
        ensures page { IfOk result (λ page. page ≡ parts) }
        ensures faultless { OnOk result (page_fault parts ≡ None) }
        ensures fault { IfErr result (λ refused. page_fault parts ≡ Some refused.0) }
        ensures handed_back { IfErr result (λ refused. refused.1 ≡ parts) }
    {
        match fault_of(&parts) {
            Some(fault) => Err((fault, parts)),
            None => Ok(Page { parts }),
        }
    }

    /// Takes the page apart again, without a copy.
    pub fn into_parts(self) -> PageParts
        ensures parts { result ≡ self }
        ensures valid { IsPage result }
    {
        self.parts
    }

    /// The number of samples in a row.
    pub fn width(&self) -> u32
        ensures value { result ≡ width self.now }
        ensures valid { IsPage self.now }
    {
        let planes = self.parts.planes.as_slice();
        planes[0].width
    }

    /// The number of rows.
    pub fn height(&self) -> u32
        ensures value { result ≡ height self.now }
        ensures valid { IsPage self.now }
    {
        let planes = self.parts.planes.as_slice();
        planes[0].height
    }

    /// The tint of full ink, from 1 to 65,535.
    pub fn maxval(&self) -> u32
        ensures value { result ≡ maxval self.now }
        ensures valid { IsPage self.now }
    {
        let planes = self.parts.planes.as_slice();
        planes[0].maxval
    }

    /// The resolution in pixels per inch.
    pub fn resolution(&self) -> u32
        ensures value { result ≡ self.now.resolution }
        ensures valid { IsPage self.now }
    {
        self.parts.resolution
    }

    /// The number of plates; they are numbered from 0.
    pub fn plates(&self) -> u32
        ensures value { result ≡ plates self.now }
        ensures valid { IsPage self.now }
    {
        self.parts.planes.len() as u32
    }

    /// The planes in the order of the plates, each with `width * height` tints, row by row from the top.
    pub fn planes(&self) -> &PlaneList
        ensures value { result.now ≡ self.now.planes }
        ensures valid { IsPage self.now }
    {
        &self.parts.planes
    }

    /// The number of zones, zone 0 among them; they are numbered from 0.
    pub fn zones(&self) -> u32
        ensures value { result ≡ length self.now.zones }
        ensures valid { IsPage self.now }
    {
        self.parts.zones.len() as u32
    }

    /// The reach of the page in half-samples: the greatest reach of its enabled zones, at most 256.
    #[tactic(auto, unfolding(crate::specs::Reach::page_reach))]
    pub fn reach2(&self) -> u32
        ensures value { result ≡ page_reach self.now }
        ensures bound { result ≤ most_reach }
        ensures valid { IsPage self.now }
    {
        let mut reach = 0;
        for z in 0..self.parts.zones.len() as u32 {
            reach = reach_at(&self.parts, z).max(reach);
        }
        reach
    }

    /// The tint of plate c at column x of row y, 0 for no ink.
    #[tactic(auto, using(crate::proofs::PageLemmas::tint_at_most))]
    pub fn tint(&self, c: u32, x: u32, y: u32) -> u16
        requires plate { c < plates self.now }
        requires sample { InPage self.now (record { x = x; y = y }) }
        ensures value { result ≡ tint self.now c (record { x = x; y = y }) }
        ensures bound { result ≤ maxval self.now }
    {
        let planes = self.parts.planes.as_slice();
        let plane = &planes[c as usize];
        let tints = plane.tints.as_slice();
        tints[y as usize * plane.width as usize + x as usize]
    }

    /// The ink of plate c.
    pub fn ink(&self, c: u32) -> &Ink
        requires { c < plates self.now }
        ensures value { result.now ≡ ink_at self.now c }
        ensures valid { IsPage self.now }
    {
        let inks = self.parts.inks.as_slice();
        &inks[c as usize]
    }

    /// The parameters of zone z.
    pub fn params(&self, z: u32) -> &TrapParams
        requires { z < length self.now.zones }
        ensures value { result.now ≡ params_at self.now z }
        ensures valid { IsPage self.now }
    {
        let zones = self.parts.zones.as_slice();
        &zones[z as usize].params
    }

    /// The path of zone z.
    pub fn path(&self, z: u32) -> &VertexList
        requires { z < length self.now.zones }
        ensures value { result.now ≡ path_at self.now z }
        ensures valid { IsPage self.now }
    {
        let zones = self.parts.zones.as_slice();
        &zones[z as usize].path
    }

    /// The step limit of plate c in zone z, in ten-thousandths of the maxval: the zone's limit for the plate's colorant
    /// if it has one, else that of the zone's parameters.
    pub fn step_limit(&self, z: u32, c: u32) -> u32
        requires zone { z < length self.now.zones }
        requires plate { c < plates self.now }
        ensures { result ≡ step_limit self.now z c }
    {
        let zones = self.parts.zones.as_slice();
        let zone = &zones[z as usize];
        let name = self.ink(c).name.as_slice();
        named_step(zone.limits.as_slice(), name, zone.params.step_limit)
    }
}

fn find_limit<'a>(limits: &'a [Limit], name: &[u8]) -> Option<&'a Limit>
    ensures { option_copied result ≡ find (λ l. bytes_eq l.name name.now) limits.now }
{
    limits.iter().find(|l| same_name(l.name.as_slice(), name))
}

fn named_step(limits: &[Limit], name: &[u8], usual: u32) -> u32
    ensures { result ≡ named_step limits.now name.now usual }
{
    match find_limit(limits, name) {
        Some(limit) => limit.step,
        None => usual,
    }
}
