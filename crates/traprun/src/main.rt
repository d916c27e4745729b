//! The program `traprun`: passes its words, the disk and standard output to the top call.
#![tactic(auto)]

use band_claims::OpenGate;
use common_errors::words::words;
use outside::disk_rack::DiskRack;
use outside::disk_tray::DiskTray;
use std::process::ExitCode;
use traprun_cli::top::traprun_main;

fn main(rt: HostRuntime) -> ExitCode {
    match words(&rt) {
        Ok(words) => {
            let mut tray = DiskTray::keeping(&rt);
            let mut rack = DiskRack::new(&rt);
            let status = traprun_main(&rt, rt.alloc(), &words, &mut tray, &mut rack, &OpenGate);
            ExitCode::from(status)
        }
        Err(status) => ExitCode::from(status),
    }
}
