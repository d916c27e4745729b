use crate::layout::Layout;

/// The arguments of a call without its samples: the job's bytes, the names of the planes' colorants separated by LF,
/// and the layout of the planes in the samples.
#[derive(Clone, Copy)]
pub struct Request<'a> {
    pub job: &'a [u8],
    pub names: &'a [u8],
    pub layout: Layout,
}
