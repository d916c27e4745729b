ghost use Rattle.std.specs.Prelude.{◌≡◌, ◌≤◌, ◌<◌, ◌^◌, IfNone, IfOk, IsTrue, length};
ghost use Rattle.std.specs.List.{list_any, position};
ghost use Rattle.job_reader.specs.InRange.{IsJob};
ghost use Rattle.page_model.specs.Limits.{most_resolution};
ghost use Rattle.trap_c.specs.Places.{IsPlaced, is_at_step as step_spec, is_exact as exact_spec, suits as suits_spec};
ghost use Rattle.trap_c.specs.Windows.{first_far as first_far_spec, is_far as is_far_spec, moved_job as job_spec};

use crate::halo::halo_of;
use crate::layout::Layout;
use crate::place::{Place, is_wide, rows_after};
use job_reader::job::Job;
use page_model::bounds::MOST_COORDINATE;
use page_model::parts::{OutOfMemory, Vertex, Zone, ZoneList};
use sheet_geometry::copies::{inks_of, zones_of};
use sheet_geometry::corners::points;
use std::alloc::Global;

/// Whether a job can be trapped in a window at that place: the halo is wide enough, and where the job has paths the window's
/// lower left corner is at the step.
pub fn suits(job: &Job, layout: Layout, place: &Place) -> bool
    requires job { IsJob job.now }
    requires placed { IsPlaced layout place.now }
    ensures { result ≡ suits_spec job.now layout place.now }
{
    is_wide(layout, place, halo_of(job))
        && (job.zones.len() <= 1 || is_at_step(job.resolution, layout, place))
}

fn is_at_step(resolution: u32, layout: Layout, place: &Place) -> bool
    requires some { 1 ≤ resolution }
    requires placed { IsPlaced layout place.now }
    ensures { result ≡ step_spec resolution layout place.now }
{
    is_exact(resolution, place.left) && is_exact(resolution, rows_after(layout, place))
}

fn is_exact(resolution: u32, samples: u32) -> bool
    requires { 1 ≤ resolution }
    ensures { result ≡ exact_spec resolution samples }
{
    720_000 * u64::from(samples) % u64::from(resolution) == 0
}

/// A copy of the job, with its paths as seen from the window's lower left corner.
pub fn moved_job(
    alloc: Global,
    job: &Job,
    layout: Layout,
    place: &Place,
) -> Result<Job, OutOfMemory>
    requires job { IsJob job.now }
    requires placed { IsPlaced layout place.now }
    ensures { IfOk result (λ moved. moved ≡ job_spec layout place.now job.now) }
{
    let right = points(job.resolution, place.left);
    let up = points(job.resolution, rows_after(layout, place));
    let zones = zones_of(alloc, job.zones.as_slice(), right, up)?;
    let details = inks_of(alloc, job.details.as_slice())?;
    Ok(Job {
        resolution: job.resolution,
        zones,
        details,
    })
}

/// The first zone with a vertex too far from the origin for a page.
pub fn first_far(zones: &ZoneList) -> Option<u32>
    requires { length zones.now ≤ 251 }
    ensures { result ≡ first_far_spec zones.now }
{
    match place_of_far(zones) {
        Some(zone) => Some(zone as u32),
        None => None,
    }
}

fn place_of_far(zones: &ZoneList) -> Option<usize>
    ensures { result ≡ first_far_spec zones.now }
{
    zones.as_slice().iter().position(|zone| has_far(zone))
}

fn has_far(zone: &Zone) -> bool
    ensures { result ≡ list_any is_far_spec zone.now.path }
{
    zone.path.as_slice().iter().any(|vertex| is_far(vertex))
}

fn is_far(vertex: &Vertex) -> bool
    ensures { result ≡ is_far_spec vertex.now }
{
    vertex.x.unsigned_abs() > MOST_COORDINATE || vertex.y.unsigned_abs() > MOST_COORDINATE
}
