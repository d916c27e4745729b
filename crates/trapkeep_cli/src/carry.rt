ghost use Rattle.std.specs.Prelude.{◌≡◌, length};
ghost use Rattle.keep_words.specs.Stored.{IsWithin, keep_in};
ghost use Rattle.page_files.specs.Gathering.{ReadsPage};
ghost use Rattle.trapkeep_cli.specs.Commands.{sources_of};
ghost use Rattle.trapkeep_cli.specs.Endings.{CarriesOut, EndsCommand};

use crate::page::put_page;
use crate::reason::{TrapkeepError, refuse_by};
use common_errors::common::CommonError;
use common_errors::statuses::DONE;
use keep_words::words::KeepArgs;
use outside::rack::Rack;
use outside::tray::Tray;
use page_files::gather::gather;
use page_model::page::Page;
use plain_words::files::{plate_inputs, plate_names};
use std::alloc::Global;

// Runs a command, and returns the status that the program exits with.
pub(crate) fn run_command<T: Tray, R: Rack>(
    alloc: Global,
    command: &KeepArgs<'_>,
    tray: &mut T,
    rack: &mut R,
) -> u8
    requires { IsWithin command.now }
    ensures { EndsCommand (keep_in command.now) (T.state tray.old) (T.state tray.new)
        (R.state rack.old) (R.state rack.new) result }
{
    match carry_out(alloc, command, tray, rack) {
        Ok(()) => DONE,
        Err(reason) => refuse_by(rack, &reason),
    }
}

// Reads the page, draws its inks back, and only then writes.
fn carry_out<T: Tray, R: Rack>(
    alloc: Global,
    command: &KeepArgs<'_>,
    tray: &mut T,
    rack: &mut R,
) -> Result<(), TrapkeepError>
    requires { IsWithin command.now }
    ensures { CarriesOut (keep_in command.now) (T.state tray.old) (T.state tray.new)
        (R.state rack.old) (R.state rack.new) result }
{
    match read_page(alloc, command, tray) {
        Ok(page) => put_page(alloc, command, &page, rack),
        Err(error) => Err(TrapkeepError::Page(error)),
    }
}

// Reads the page of the command's job and plates.
fn read_page<T: Tray>(
    alloc: Global,
    command: &KeepArgs<'_>,
    tray: &mut T,
) -> Result<Page, CommonError>
    requires { IsWithin command.now }
    ensures { ReadsPage (sources_of (keep_in command.now)) (T.state tray.old)
        (T.state tray.new) result }
{
    match (
        plate_names(alloc, command.plates),
        plate_inputs(alloc, command.plates),
    ) {
        (Ok(names), Ok(inputs)) => gather(alloc, tray, command.job, &names, inputs.as_slice()),
        _ => Err(CommonError::Memory),
    }
}
