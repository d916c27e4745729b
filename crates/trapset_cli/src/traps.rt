ghost use Rattle.std.specs.Prelude.{length};
ghost use Rattle.page_files.specs.Gathering.{ReadsPage};
ghost use Rattle.trapset_cli.specs.Commands.{sources_of};
ghost use Rattle.trapset_cli.specs.Endings.{CarriesOut};
ghost use Rattle.trapset_cli.specs.Putting.{PutsSet};
ghost use Rattle.plain_words.specs.Inputs.{AreFew};
ghost use Rattle.trapset_cli.specs.Stored.{traps_in};
ghost use Rattle.trapset_cli.specs.Words.{Traps as traps};

use crate::command::TrapsArgs;
use crate::reason::TrapsetError;
use common_errors::common::CommonError;
use outside::rack::Rack;
use outside::tray::{DeviceError, Tray};
use page_files::gather::gather;
use page_model::page::Page;
use page_model::shape_laws::page_planes_law;
use plain_words::files::{input_files, input_names};
use std::alloc::Global;
use strip_engine::trap_alone;
use trap_set::write_set;

// Runs the command `traps`: reads the page, traps it, and only then writes the set.
pub(crate) fn carry_out_traps<T: Tray, R: Rack>(
    alloc: Global,
    command: &TrapsArgs<'_>,
    tray: &mut T,
    rack: &mut R,
) -> Result<(), TrapsetError>
    requires { AreFew (length command.now.plates.now) }
    ensures { CarriesOut (traps (traps_in command.now)) (T.state tray.old) (T.state tray.new)
        (R.state rack.old) (R.state rack.new) result }
{
    match read_page(alloc, command, tray) {
        Ok(page) => put_set(alloc, &page, command.set, rack),
        Err(error) => Err(TrapsetError::Page(error)),
    }
}

// Reads the page of the command's job and plates.
fn read_page<T: Tray>(
    alloc: Global,
    command: &TrapsArgs<'_>,
    tray: &mut T,
) -> Result<Page, CommonError>
    requires { AreFew (length command.now.plates.now) }
    ensures { ReadsPage (sources_of (traps_in command.now)) (T.state tray.old)
        (T.state tray.new) result }
{
    match (
        input_names(alloc, command.plates),
        input_files(alloc, command.plates),
    ) {
        (Ok(names), Ok(inputs)) => gather(alloc, tray, command.job, &names, inputs.as_slice()),
        _ => Err(CommonError::Memory),
    }
}

// Traps the page, and writes the set of the changes.
fn put_set<R: Rack>(
    alloc: Global,
    page: &Page,
    name: &str,
    rack: &mut R,
) -> Result<(), TrapsetError>
    ensures { PutsSet name.now page.now (R.state rack.old) (R.state rack.new) result }
{
    let _valid = page.plates();
    page_planes_law(page);
    let Ok(trapped) = trap_alone(alloc, page) else {
        return Err(TrapsetError::Page(CommonError::Memory));
    };
    match write_set(rack, name, page.planes(), &trapped.planes) {
        Ok(()) => Ok(()),
        Err(DeviceError) => Err(TrapsetError::SetUnwritten),
    }
}
