use outside::disk_rack::DiskRack;
use outside::disk_tray::DiskTray;
use outside::rack::Rack;
use outside::reading::read_file;
use outside::tray::Tray;
use outside::writing::write_file;
use std::alloc::Global;
use std::fs;
use std::test::Fail;

fn is_written(rt: &HostRuntime, name: &str, text: &[u8]) -> bool {
    let mut rack = DiskRack::new(rt);
    write_file(&mut rack, name, text).is_ok()
}

fn is_reported(rt: &HostRuntime) -> bool {
    DiskRack::new(rt).tell(b"told\n").is_ok()
}

fn gives(
    alloc: Global,
    tray: &mut DiskTray<'_, HostRuntime>,
    name: &str,
    want: Option<&[u8]>,
) -> bool {
    match read_file(alloc, tray, name, 100) {
        Ok(bytes) => want == Some(bytes.as_slice()),
        Err(_) => want.is_none(),
    }
}

// Whether a read of the file on the disk gives these bytes, or, where none are given, is refused.
fn holds(rt: &HostRuntime, name: &str, want: Option<&[u8]>) -> bool {
    let mut tray = DiskTray::new(rt);
    gives(rt.alloc(), &mut tray, name, want)
}

// The first byte of a file that is begun.
fn first_byte(tray: &mut DiskTray<'_, HostRuntime>, name: &str) -> Option<u8> {
    let mut byte = [0u8];
    match tray.begin(name) {
        Ok(()) => match tray.read(&mut byte) {
            Ok(1) => Some(byte[0]),
            _ => None,
        },
        Err(_) => None,
    }
}

fn begins_anew(
    tray: &mut DiskTray<'_, HostRuntime>,
    name: &str,
    other: &str,
    first: u8,
    second: u8,
) -> bool {
    first_byte(tray, name) == Some(first)
        && first_byte(tray, other) == Some(second)
        && first_byte(tray, name) == Some(first)
}

// Whether a file that is begun after one byte of another gives its own, and the other its first byte again.
fn begin_anew(rt: &HostRuntime, name: &str, other: &str, first: u8, second: u8) -> bool {
    let mut tray = DiskTray::new(rt);
    begins_anew(&mut tray, name, other, first, second)
}

#[test]
fn a_file_on_the_disk_is_begun_at_its_start(rt: HostRuntime) -> Result<(), Fail> {
    assert!(rt; is_written(&rt, "outside-one", b"one"));
    assert!(rt; is_written(&rt, "outside-two", b"two"));
    assert!(rt; begin_anew(&rt, "outside-one", "outside-two", b'o', b't'));
    fs::remove_file(&rt, "outside-one")?;
    fs::remove_file(&rt, "outside-two")?;
    Ok(())
}

#[test]
fn real_files_are_written_and_read(rt: HostRuntime) -> Result<(), Fail> {
    let name = "outside-real-file";
    assert!(rt; is_written(&rt, name, b"first and longer"));
    assert!(rt; is_written(&rt, name, b"second"));
    assert!(rt; !is_written(&rt, "no-such-folder/file", b""));
    assert!(rt; is_reported(&rt));
    assert!(rt; holds(&rt, name, Some(b"second")));
    fs::remove_file(&rt, name)?;
    assert!(rt; holds(&rt, name, None));
    Ok(())
}
