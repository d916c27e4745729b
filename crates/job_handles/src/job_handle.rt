ghost use Rattle.std.specs.Prelude.{◌≡◌, MatchOption, None, Option, Some, is_some};

use crate::handle::Handle;
use crate::open_job::OpenJob;
use std::alloc::Global;

/// A job that C holds: open, or not. In C it is `struct trap_job`, a pointer and a flag, which is all 0 where no job was
/// opened.
#[repr(C)]
#[derive(Drop)]
pub struct JobHandle {
    inner: Handle,
    is_open: bool,
    ghost flag: { is_open ≡ is_some inner.value },
}

impl JobHandle {
    /// A handle that is not open.
    pub fn none(alloc: Global) -> JobHandle
        ensures { result.inner.value ≡ None }
    {
        JobHandle {
            inner: Handle::none(alloc),
            is_open: false,
        }
    }

    /// The handle of an open job.
    pub fn of(stored: Box<OpenJob>) -> JobHandle
        ensures { result.inner.value ≡ Some stored.value }
    {
        JobHandle {
            inner: Handle::of(stored),
            is_open: true,
        }
    }

    /// Takes the open job out of the handle, which is not open afterwards.
    pub fn take(&mut self, alloc: Global) -> Option<Box<OpenJob>>
        ensures taken { MatchOption result (self.old.inner.value ≡ None)
            (λ stored. self.old.inner.value ≡ Some stored.value) }
        ensures none { self.new.inner.value ≡ None }
    {
        let JobHandle { inner, is_open } = std::mem::replace(self, JobHandle::none(alloc));
        if is_open {
            Some(inner.into_box())
        } else {
            None
        }
    }
}
