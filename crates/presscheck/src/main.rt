//! The program `presscheck`: passes its words, the disk and standard output to the top call.
#![tactic(auto)]

use common_errors::words::words;
use outside::disk_rack::DiskRack;
use outside::disk_tray::DiskTray;
use presscheck_cli::top::presscheck_main;
use std::process::ExitCode;

fn main(rt: HostRuntime) -> ExitCode {
    match words(&rt) {
        Ok(words) => {
            let mut tray = DiskTray::new(&rt);
            let mut rack = DiskRack::new(&rt);
            ExitCode::from(presscheck_main(rt.alloc(), &words, &mut tray, &mut rack))
        }
        Err(status) => ExitCode::from(status),
    }
}
