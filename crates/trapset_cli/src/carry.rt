ghost use Rattle.trapset_cli.specs.Endings.{CarriesOut, EndsCommand};
ghost use Rattle.trapset_cli.specs.Stored.{IsWithin, command_in};

use crate::apply::carry_out_apply;
use crate::command::Command;
use crate::reason::{TrapsetError, refuse_by};
use crate::traps::carry_out_traps;
use common_errors::statuses::DONE;
use outside::rack::Rack;
use outside::tray::Tray;
use std::alloc::Global;

// Runs a command, and returns the status that the program exits with.
pub(crate) fn run_command<T: Tray, R: Rack>(
    alloc: Global,
    command: &Command<'_>,
    tray: &mut T,
    rack: &mut R,
) -> u8
    requires { IsWithin command.now }
    ensures { EndsCommand (command_in command.now) (T.state tray.old) (T.state tray.new)
        (R.state rack.old) (R.state rack.new) result }
{
    match carry_out(alloc, command, tray, rack) {
        Ok(()) => DONE,
        Err(reason) => refuse_by(rack, &reason),
    }
}

fn carry_out<T: Tray, R: Rack>(
    alloc: Global,
    command: &Command<'_>,
    tray: &mut T,
    rack: &mut R,
) -> Result<(), TrapsetError>
    requires { IsWithin command.now }
    ensures { CarriesOut (command_in command.now) (T.state tray.old) (T.state tray.new)
        (R.state rack.old) (R.state rack.new) result }
{
    match command {
        Command::Traps(traps) => carry_out_traps(alloc, traps, tray, rack),
        Command::Apply(apply) => carry_out_apply(alloc, apply, tray, rack),
    }
}
