ghost use Rattle.std.specs.Prelude.{◌≡◌, None, Option, Some, is_some, true};
ghost use Rattle.job_handles.specs.declared.open_job.OpenJob.{OpenJob};
ghost use Rattle.job_handles.specs.Handles.{handle_owns, value_coded};

use crate::loose::Loose;
use crate::open_job::OpenJob;
use std::alloc::Global;
use std::marker::Model;

/// A pointer to an open job in a box, or none. C sees one pointer: an allocator takes no bytes.
#[repr(C)]
#[derive(Drop)]
pub struct Handle {
    at: *mut u8,
    alloc: Global,
    pub ghost value: { Option OpenJob } by { value_coded },
}

impl Model for Handle {
    ghost also_owns = { λ s. handle_owns s.alloc s.at s.value };
}

impl Handle {
    /// A handle that is not open.
    pub(crate) fn none(alloc: Global) -> Handle
        ensures { result.value ≡ None }
    {
        Handle {
            at: std::ptr::null_mut(),
            alloc,
        }
    }

    /// The handle of an open job.
    pub(crate) fn of(whole: Box<OpenJob>) -> Handle
        ensures { result.value ≡ Some whole.value }
    {
        Handle::of_parts(Loose::of(whole))
    }

    fn of_parts(parts: Loose<OpenJob, Global>) -> Handle
        ensures { result.value ≡ Some parts.value }
    {
        let Loose { at, alloc } = parts;
        Handle {
            at: at as *mut u8,
            alloc,
        }
    }

    /// The open job of a handle.
    pub(crate) fn into_box(self) -> Box<OpenJob>
        requires { is_some self.value ≡ true }
        ensures { self.value ≡ Some result.value }
    {
        self.into_parts().into_box()
    }

    fn into_parts(self) -> Loose<OpenJob, Global>
        requires { is_some self.value ≡ true }
        ensures { self.value ≡ Some result.value }
    {
        let Handle { at, alloc } = self;
        Loose {
            at: at as *mut OpenJob,
            alloc,
        }
    }
}
