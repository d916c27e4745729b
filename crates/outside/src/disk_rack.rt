ghost use Rattle.std.specs.Prelude.{◌≡◌};
ghost use Rattle.outside.specs.Disk.{fresh_disk};

use crate::disk_file::DiskFile;
use crate::mem_calls::fault;
use crate::rack::Rack;
use crate::tray::DeviceError;
use std::io;
use std::io::Write;
use std::marker::Model;
use std::rt::Files;

/// The files of a disk, and standard output. Contracts know nothing of their bytes.
///
/// A file takes its name when it is finished: then it is whole and written through to the disk. Until then, and where a
/// call fails, the old file of that name stays. What was begun is removed when the rack begins another file or is
/// dropped.
#[derive(Drop)]
pub struct DiskRack<'a, R: Files + Alloc + Print> {
    files: &'a R,
    current: Option<DiskFile<'a, R>>,
    faults: u64,
}

impl<'a, R: Files + Alloc + Print> Model for DiskRack<'a, R> {
    ghost use Rattle.outside.specs.Disk.{DiskState};
    ghost use Rattle.std.specs.Prelude.{is_some};

    ghost Value = { DiskState };

    ghost view = { λ d. record { is_open = is_some d.current; faults = d.faults } };
}

impl<'a, R: Files + Alloc + Print> DiskRack<'a, R> {
    /// A rack over the files of the system and its standard output. No file is open.
    pub fn new(files: &'a R) -> DiskRack<'a, R>
        ensures { result ≡ fresh_disk }
    {
        DiskRack {
            files,
            current: None,
            faults: 0,
        }
    }
}

impl<R: Files + Alloc + Print> Rack for DiskRack<'_, R> {
    ghost use Rattle.outside.specs.Disk.{disk_rack_of};

    ghost state = { disk_rack_of };

    fn create(&mut self, name: &str) -> Result<(), DeviceError> {
        self.current = None;
        self.current = DiskFile::create(self.files, name).ok();
        match &self.current {
            Some(_) => Ok(()),
            None => Err(fault(&mut self.faults)),
        }
    }

    fn write(&mut self, piece: &[u8]) -> Result<usize, DeviceError> {
        match &mut self.current {
            Some(file) => match file.write(piece) {
                Ok(count) => Ok(count),
                Err(DeviceError) => Err(fault(&mut self.faults)),
            },
            None => Err(fault(&mut self.faults)),
        }
    }

    fn finish(&mut self) -> Result<(), DeviceError> {
        match &mut self.current {
            Some(file) => match file.finish() {
                Ok(()) => {
                    self.current = None;
                    Ok(())
                }
                Err(DeviceError) => Err(fault(&mut self.faults)),
            },
            None => Err(fault(&mut self.faults)),
        }
    }

    fn tell(&mut self, text: &[u8]) -> Result<(), DeviceError> {
        match io::writer(self.files).write_all(text) {
            Ok(()) => Ok(()),
            Err(_) => Err(fault(&mut self.faults)),
        }
    }
}
