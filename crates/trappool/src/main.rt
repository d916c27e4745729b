//! The program `trappool`: passes its words, the disk and standard output to the top call.
#![tactic(auto)]

use common_errors::words::words;
use outside::disk_rack::DiskRack;
use outside::disk_tray::DiskTray;
use std::process::ExitCode;
use trap_pool::OpenTakes;
use trappool_cli::top::trappool_main;

fn main(rt: HostRuntime) -> ExitCode {
    match words(&rt) {
        Ok(words) => {
            let mut tray = DiskTray::new(&rt);
            let mut rack = DiskRack::new(&rt);
            ExitCode::from(trappool_main(&rt, rt.alloc(), &words, &mut tray, &mut rack, &OpenTakes))
        }
        Err(status) => ExitCode::from(status),
    }
}
