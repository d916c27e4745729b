ghost use Rattle.std.specs.Prelude.{◌≡◌, ◌<◌, length};
ghost use Rattle.job_reader.specs.InRange.{IsJob};
ghost use Rattle.page_model.specs.Reach.{zone_reach};
ghost use Rattle.trap_c.specs.Places.{job_halo, job_parts, job_reach};

use job_reader::job::Job;
use page_model::reach::reach_of;

// The reach of a zone in half-samples, 0 where it is disabled.
fn zone_reach_of(job: &Job, z: usize) -> u32
    requires job { IsJob job.now }
    requires zone { z < length job.now.zones }
    ensures { result ≡ zone_reach (job_parts job.now) z }
{
    let zones = job.zones.as_slice();
    let params = &zones[z].params;
    if params.enabled {
        reach_of(params, job.resolution)
    } else {
        0
    }
}

/// The reach of a job in half-samples: the greatest of its zones.
#[tactic(auto, unfolding(page_model::specs::Reach::page_reach))]
pub fn reach_of_job(job: &Job) -> u32
    requires { IsJob job.now }
    ensures { result ≡ job_reach job.now }
{
    let mut reach = 0;
    for z in 0..job.zones.len() {
        reach = zone_reach_of(job, z).max(reach);
    }
    reach
}

/// The halo that a window needs round its core, in rows and columns, on each side that is no border of the sheet: half
/// the reach of the job's zones, rounded up to whole samples, and at least one.
pub fn halo_of(job: &Job) -> u32
    requires { IsJob job.now }
    ensures { result ≡ job_halo job.now }
{
    reach_of_job(job).div_ceil(2).max(1)
}
