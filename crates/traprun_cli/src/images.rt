ghost use Rattle.std.specs.Prelude.{◌<◌, ◌≤◌, length, map};
ghost use Rattle.traprun_cli.specs.Reading.{ExpectsEnd, ReadsImages, ends_sought, images_sought};
ghost use Rattle.page_model.specs.Limits.{most_plates};

use crate::error::TraprunError;
use common_errors::common::CommonError;
use outside::tray::Tray;
use page_files::looks::{Look, look_through};
use page_model::parts::{Plane, PlaneList};
use pgm_plates::pages::{read_page, read_page_plane};
use pgm_plates::plate::PlateError;
use std::alloc::Global;

/// Reads the plane of that page's image from each of these files in order, up to the first that is refused. No file is
/// begun after it.
pub(crate) fn read_images<T: Tray>(
    alloc: Global,
    tray: &mut T,
    page: u32,
    inputs: &[&str],
) -> Result<PlaneList, TraprunError>
    requires { length inputs.now ≤ most_plates }
    ensures { ReadsImages page (map (λ file. file.now) inputs.now) (T.state tray.old)
        (T.state tray.new) result }
{
    look_through(alloc, tray, inputs, &Images { page })
}

/// Checks that each of these files ends after as many images as the job has pages, in order, up to the first that does
/// not.
pub(crate) fn expect_end<T: Tray>(
    alloc: Global,
    tray: &mut T,
    pages: u32,
    inputs: &[&str],
) -> Result<(), TraprunError>
    requires { length inputs.now ≤ most_plates }
    ensures { ExpectsEnd pages (map (λ file. file.now) inputs.now) (T.state tray.old)
        (T.state tray.new) result }
{
    look_through(alloc, tray, inputs, &Ends { pages })?;
    Ok(())
}

// Reads the plane of a page's image in each file.
#[derive(Drop)]
struct Images {
    page: u32,
}

impl Look for Images {
    type Found = Plane;

    type CommonError = TraprunError;

    ghost sought = { λ look. images_sought look.page };

    fn look<T: Tray>(
        &self,
        alloc: Global,
        tray: &mut T,
        number: u32,
        name: &str,
    ) -> Result<Plane, TraprunError> {
        match read_page_plane(alloc, tray, name, self.page) {
            Ok(Some(plane)) => Ok(plane),
            Ok(None) => Err(TraprunError::Ends(self.page, number)),
            Err(PlateError::Fault(fault)) => {
                Err(TraprunError::AtPage(self.page, CommonError::Plate(number, fault)))
            }
            Err(PlateError::ReadFault) => {
                Err(TraprunError::AtPage(self.page, CommonError::Read(Some(number))))
            }
            Err(PlateError::OutOfMemory) => Err(TraprunError::Whole(CommonError::Memory)),
        }
    }

    fn no_memory(&self) -> TraprunError {
        TraprunError::Whole(CommonError::Memory)
    }
}

// Checks the end of each file after the images of all pages.
#[derive(Drop)]
struct Ends {
    pages: u32,
}

impl Look for Ends {
    type Found = ();

    type CommonError = TraprunError;

    ghost sought = { λ look. ends_sought look.pages };

    fn look<T: Tray>(
        &self,
        alloc: Global,
        tray: &mut T,
        number: u32,
        name: &str,
    ) -> Result<(), TraprunError> {
        match read_page(alloc, tray, name, self.pages) {
            Ok(None) => Ok(()),
            Ok(Some(_)) => Err(TraprunError::Extra(number)),
            Err(PlateError::Fault(fault)) => {
                Err(TraprunError::Whole(CommonError::Plate(number, fault)))
            }
            Err(PlateError::ReadFault) => Err(TraprunError::Whole(CommonError::Read(Some(number)))),
            Err(PlateError::OutOfMemory) => Err(TraprunError::Whole(CommonError::Memory)),
        }
    }

    fn no_memory(&self) -> TraprunError {
        TraprunError::Whole(CommonError::Memory)
    }
}
