use lists::list::List;
use outside::mem_rack::MemRack;
use outside::mem_tray::MemTray;
use std::alloc::Global;
use std::process::Abort;
use test_files::{put_file, rack_of, tray_of};

/// Stops the test where an answer is wrong, and names the row that it is of.
pub fn judge(rt: &impl Abort, is_right: bool, row: &str, number: u64) {
    assert!(rt; is_right, "{row}, {number}");
}

/// A call of a device that fails.
#[derive(Clone, Copy)]
pub struct Fault {
    pub device: usize,
    pub call: u64,
}

// The call of that device that fails.
fn call_of(fault: Option<Fault>, device: usize) -> Option<u64> {
    match fault {
        Some(fault) if fault.device == device => Some(fault.call),
        _ => None,
    }
}

// A tray with one file, `in`, of these bytes, of which each read gives at most three.
fn tray_with(rt: &impl Abort, alloc: Global, bytes: &[u8], call: Option<u64>) -> MemTray {
    let mut files = List::new(alloc);
    assert!(rt;
        put_file(alloc, &mut files, "in", &[bytes]).is_ok(),
        "no memory"
    );
    tray_of(alloc, files, 3, call).expect(rt, "no tray")
}

fn put_tray(rt: &impl Abort, trays: &mut Vec<MemTray>, tray: MemTray) {
    assert!(rt; trays.push(tray).is_ok(), "no memory");
}

/// A tray for each of two files.
pub fn trays_of(
    rt: &impl Abort,
    alloc: Global,
    files: &[&str; 2],
    fault: Option<Fault>,
) -> Vec<MemTray> {
    let mut trays = Vec::new(alloc);
    for device in 0..2usize {
        let bytes = files[device].as_bytes();
        put_tray(
            rt,
            &mut trays,
            tray_with(rt, alloc, bytes, call_of(fault, device)),
        );
    }
    trays
}

fn put_rack(rt: &impl Abort, racks: &mut Vec<MemRack>, rack: MemRack) {
    assert!(rt; racks.push(rack).is_ok(), "no memory");
}

/// Two racks, of which each write takes at most three bytes.
pub fn racks_of(rt: &impl Abort, alloc: Global, fault: Option<Fault>) -> Vec<MemRack> {
    let mut racks = Vec::new(alloc);
    for device in 0..2usize {
        let rack = rack_of(alloc, 3, 1_000, call_of(fault, device));
        put_rack(rt, &mut racks, rack.expect(rt, "no memory"));
    }
    racks
}
