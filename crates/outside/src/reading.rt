ghost use Rattle.std.specs.Prelude.{◌≡◌, IsTrue, ◌∷◌, [], ◌++◌, ◌≤◌, ◌-◌, length, take, drop, IfOk, OnOk, IsErrOf};
ghost use Rattle.outside.specs.ErrorCases.{Rose, RoseOnce, Asks};
ghost use Rattle.outside.specs.Tray.{KeepsTray};
ghost use Rattle.outside.specs.Reading.{TakesPrefix, TakesAtMost, TakesFew};
ghost use Rattle.outside.specs.declared.reading.ReadError.TheVariants.{ReadFault};

use crate::tray::{DeviceError, Tray};
use lists::list::List;
use lists::names::Name;
use std::alloc::Global;
use thiserror::Error;

/// Why a file could not be read whole.
#[derive(Clone, Copy, Debug, Drop, Error)]
pub enum ReadError {
    /// A call of the tray failed.
    #[error("the file could not be read")]
    ReadFault,
    #[error("out of memory")]
    OutOfMemory,
}

impl From<DeviceError> for ReadError {
    ghost from_gives = { λ _ error. error ≡ ReadFault };

    fn from(_: DeviceError) -> ReadError {
        ReadError::ReadFault
    }
}

const PIECE: usize = 4096;

/// Reads the file of that name to its end. At most `most` bytes are read, whatever the answer.
pub fn read_file<T: Tray>(
    alloc: Global,
    tray: &mut T,
    name: &str,
    most: u32,
) -> Result<Name, ReadError>
    ensures keeps { KeepsTray (T.state tray.old) (T.state tray.new) }
    ensures asked { Asks (T.state tray.old).asked (T.state tray.new).asked (name.now ∷ []) }
    ensures taken { IfOk result (λ bytes. IsTrue (T.state tray.old).tells →
        TakesPrefix name.now most (T.state tray.old) (T.state tray.new) bytes) }
    ensures few { IsTrue (T.state tray.new).begun → IsTrue (T.state tray.old).tells →
        TakesFew name.now most (T.state tray.old) (T.state tray.new) }
    ensures well { OnOk result ((T.state tray.new).faults ≡ (T.state tray.old).faults) }
    ensures memory { IsErrOf result ReadError.OutOfMemory →
        IsTrue (T.state tray.new).begun × ((T.state tray.new).faults ≡ (T.state tray.old).faults) }
    ensures reason { IsErrOf result ReadError.ReadFault →
        Rose (T.state tray.old).faults (T.state tray.new).faults }
    ensures once { IsErrOf result ReadError.ReadFault →
        RoseOnce (T.state tray.old).faults (T.state tray.new).faults }
{
    tray.begin(name)?;
    let bytes = read_on(alloc, tray, most as usize)?;
    Ok(List::from_vec(bytes))
}

// Reads the rest of the open file.
fn read_on<T: Tray>(alloc: Global, tray: &mut T, most: usize) -> Result<Vec<u8>, ReadError>
    requires { IsTrue (T.state tray.old).begun }
    ensures keeps { KeepsTray (T.state tray.old) (T.state tray.new) }
    ensures asked { (T.state tray.new).asked ≡ (T.state tray.old).asked }
    ensures begun { IsTrue (T.state tray.new).begun }
    ensures taken { IfOk result (λ bytes. IsTrue (T.state tray.old).tells →
        bytes.items ≡ take most (T.state tray.old).left) }
    ensures left { IfOk result (λ bytes. IsTrue (T.state tray.old).tells →
        (T.state tray.new).left ≡ drop most (T.state tray.old).left) }
    ensures few { IsTrue (T.state tray.old).tells →
        TakesAtMost most (T.state tray.old).left (T.state tray.new) }
    ensures well { OnOk result ((T.state tray.new).faults ≡ (T.state tray.old).faults) }
    ensures memory { IsErrOf result ReadError.OutOfMemory →
        (T.state tray.new).faults ≡ (T.state tray.old).faults }
    ensures reason { IsErrOf result ReadError.ReadFault →
        Rose (T.state tray.old).faults (T.state tray.new).faults }
    ensures once { IsErrOf result ReadError.ReadFault →
        RoseOnce (T.state tray.old).faults (T.state tray.new).faults }
{
    let mut bytes: Vec<u8> = Vec::new(alloc);
    let mut piece = [0u8; PIECE];
    while bytes.len() < most {
        let want = PIECE.min(most - bytes.len());
        match tray.read(&mut piece[..want]) {
            Ok(0) => return Ok(bytes),
            Ok(count) => match bytes.extend_from_slice(&piece[..count]) {
                Ok(()) => {}
                Err(_) => return Err(ReadError::OutOfMemory),
            },
            Err(DeviceError) => return Err(ReadError::ReadFault),
        }
    }
    Ok(bytes)
}
