//! The program `trap`: passes its words, the disk and standard output to the top call.
#![tactic(auto)]

use band_claims::OpenGate;
use common_errors::words::words;
use outside::disk_rack::DiskRack;
use outside::disk_tray::DiskTray;
use std::process::ExitCode;
use trap_cli::top::trap_main;

fn main(rt: HostRuntime) -> ExitCode {
    match words(&rt) {
        Ok(words) => {
            let mut tray = DiskTray::new(&rt);
            let mut rack = DiskRack::new(&rt);
            let ended = trap_main(&rt, rt.alloc(), &words, &mut tray, &mut rack, &OpenGate);
            ExitCode::from(ended.status)
        }
        Err(status) => ExitCode::from(status),
    }
}
