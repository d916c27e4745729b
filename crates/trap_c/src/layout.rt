/// How planes are laid out in the samples: the sides of each plane in samples, the number of samples from the start of
/// a row to that of the next, and the tint of full ink.
#[derive(Clone, Copy, Debug, Drop, PartialEq, Eq)]
pub struct Layout {
    pub width: u32,
    pub height: u32,
    pub step: u32,
    pub maxval: u32,
}
