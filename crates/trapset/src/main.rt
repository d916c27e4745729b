//! The program `trapset`: passes its words, the disk and standard output to the top call.
#![tactic(auto)]

use common_errors::words::words;
use outside::disk_rack::DiskRack;
use outside::disk_tray::DiskTray;
use std::process::ExitCode;
use trapset_cli::top::trapset_main;

fn main(rt: HostRuntime) -> ExitCode {
    match words(&rt) {
        Ok(words) => {
            let mut tray = DiskTray::new(&rt);
            let mut rack = DiskRack::new(&rt);
            ExitCode::from(trapset_main(rt.alloc(), &words, &mut tray, &mut rack))
        }
        Err(status) => ExitCode::from(status),
    }
}
