ghost use Rattle.std.specs.Prelude.{◌≡◌, Ok};
ghost use Rattle.job_reader.specs.InRange.{IsJob};
ghost use Rattle.job_pages.specs.Runs.{HasPage, page_job_of};
ghost use Rattle.traprun_cli.specs.Gathering.{GathersPage, OpensJob, job_error as job_error_spec};
ghost use Rattle.traprun_cli.specs.Opened.{IsOpenJob, IsWithin, order_in};
ghost use Rattle.traprun_cli.specs.Words.{sources_of};

use crate::error::{TraprunError, error_at};
use crate::images::read_images;
use crate::job::read_run_job;
use crate::words::TraprunArgs;
use common_errors::common::CommonError;
use job_pages::many::ManyPages;
use job_reader::job::Job;
use lists::names::NameList;
use outside::tray::Tray;
use page_files::assemble::assemble_planes;
use page_model::page::Page;
use plain_words::files::{plate_inputs, plate_names};
use ps_tokens::faults::JobError;
use std::alloc::Global;

/// A run whose job was read: its arguments, the names of its plates' colorants and their files, and its job.
#[derive(Drop)]
pub struct OpenJob<'a> {
    pub order: &'a TraprunArgs<'a>,
    pub names: NameList,
    pub inputs: Vec<&'a str>,
    pub job: ManyPages,
}

/// Reads the job of a run. Memory for the names of its plates is allocated first.
pub fn open_job<'a, T: Tray>(
    alloc: Global,
    order: &'a TraprunArgs<'a>,
    tray: &mut T,
) -> Result<OpenJob<'a>, TraprunError>
    requires { IsWithin order.now }
    ensures { OpensJob order.now (T.state tray.old) (T.state tray.new) result }
{
    let (names, inputs) = match (
        plate_names(alloc, order.plates),
        plate_inputs(alloc, order.plates),
    ) {
        (Ok(names), Ok(inputs)) => (names, inputs),
        _ => return Err(TraprunError::Whole(CommonError::Memory)),
    };
    match read_run_job(alloc, tray, order.job) {
        Ok(job) => Ok(OpenJob {
            order,
            names,
            inputs,
            job,
        }),
        Err(error) => Err(error),
    }
}

/// Reads the page of that number, counted from 0: its job, and the image of each plate; and makes a page of them.
///
/// It stops at the first error: the job's fault, a read that fails, a plate whose file has no image for the page or a
/// fault, a plate without details, a fault of the page, or out of memory. No file is begun after the one that is
/// refused.
pub fn gather_page<T: Tray>(
    alloc: Global,
    opened: &OpenJob<'_>,
    page: u32,
    tray: &mut T,
) -> Result<Page, TraprunError>
    requires opened { IsOpenJob opened.now }
    requires page { HasPage opened.now.job page }
    ensures { let order = order_in opened.now.order.now in
        GathersPage (sources_of order) opened.now.job page (T.state tray.old) (T.state tray.new)
        result }
{
    match opened.job.job(alloc, page) {
        Ok(job) => gather_images(alloc, job, opened, page, tray),
        Err(common_error) => Err(job_error(page, common_error)),
    }
}

// Adds the page number to an error of its job. Out of memory is reported without one.
fn job_error(page: u32, common_error: JobError) -> TraprunError
    ensures { result ≡ job_error_spec page common_error }
{
    match common_error {
        JobError::Fault(fault) => TraprunError::AtPage(page, CommonError::Job(fault)),
        JobError::OutOfMemory => TraprunError::Whole(CommonError::Memory),
    }
}

// Reads the images of the page after its job, and makes a page of both.
fn gather_images<T: Tray>(
    alloc: Global,
    job: Job,
    opened: &OpenJob<'_>,
    page: u32,
    tray: &mut T,
) -> Result<Page, TraprunError>
    requires opened { IsOpenJob opened.now }
    requires job { IsJob job }
    requires given { page_job_of opened.now.job page ≡ Ok job }
    ensures { let order = order_in opened.now.order.now in
        GathersPage (sources_of order) opened.now.job page (T.state tray.old) (T.state tray.new)
        result }
{
    let planes = read_images(alloc, tray, page, opened.inputs.as_slice())?;
    match assemble_planes(alloc, job, planes, &opened.names) {
        Ok(made) => Ok(made),
        Err(common_error) => Err(error_at(page, common_error)),
    }
}
