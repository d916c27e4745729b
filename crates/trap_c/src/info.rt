// What a job asks of windows, and what it has, as numbers for C.

ghost use Rattle.std.specs.Prelude.{◌≡◌, length};
ghost use Rattle.job_reader.specs.InRange.{IsJob};
ghost use Rattle.trap_c.specs.Infos.{IsCornerStep, IsInfoOf};

use crate::halo::{halo_of, reach_of_job};
use job_reader::job::Job;
use sheet_geometry::spans::step_of;

/// The figures of a job: C's `struct trap_info`. The reach is in half-samples; the zones are those of a report, zone 0 among
/// them, and the inks those that the job names.
#[repr(C)]
#[derive(Drop)]
pub struct Info {
    pub size: u32,
    pub resolution: u32,
    pub halo: u32,
    pub corner_step: u32,
    pub reach: u32,
    pub zones: u32,
    pub inks: u64,
}

/// The bytes that C's struct has.
pub const INFO_SIZE: u32 = 32;

fn corner_step(job: &Job) -> u32
    requires { IsJob job.now }
    ensures { IsCornerStep job.now result }
{
    if job.zones.len() <= 1 {
        1
    } else {
        step_of(job.resolution)
    }
}

/// The figures of a job.
pub fn info_of(job: &Job) -> Info
    requires { IsJob job.now }
    ensures { IsInfoOf job.now result }
{
    Info {
        size: INFO_SIZE,
        resolution: job.resolution,
        halo: halo_of(job),
        corner_step: corner_step(job),
        reach: reach_of_job(job),
        zones: job.zones.len() as u32,
        inks: job.details.len() as u64,
    }
}
