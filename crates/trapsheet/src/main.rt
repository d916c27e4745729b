//! The program `trapsheet`: passes its words, the disk and standard output to the top call.
#![tactic(auto)]

use common_errors::words::words;
use outside::disk_rack::DiskRack;
use outside::disk_tray::DiskTray;
use page_model::bounds::MOST_PLATES;
use std::array;
use std::process::ExitCode;
use trapsheet_cli::top::trapsheet_main;

// A tray and a rack for each plate that a sheet may have.
fn main(rt: HostRuntime) -> ExitCode {
    match words(&rt) {
        Ok(words) => {
            let mut trays: [DiskTray<_>; MOST_PLATES] = array::from_fn(|_| DiskTray::keeping(&rt));
            let mut racks: [DiskRack<_>; MOST_PLATES] = array::from_fn(|_| DiskRack::new(&rt));
            let status = trapsheet_main(&rt, rt.alloc(), &words, &mut trays, &mut racks);
            ExitCode::from(status)
        }
        Err(status) => ExitCode::from(status),
    }
}
