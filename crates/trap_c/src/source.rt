ghost use Rattle.std.specs.Prelude.{◌≡◌, ◌≤◌, ◌*◌, ◌+◌, ◌++◌, [], IfOk, IsTrue, OnOk, length};
ghost use Rattle.trap_c.specs.Copies.{IsCopied};
ghost use Rattle.trap_c.specs.Fit.{AreFit, IsLayout};
ghost use Rattle.trap_c.specs.Planes.{row_in, tints_in};
ghost use Rattle.trap_c.specs.Sources.{numbers};

use crate::fit::are_fit;
use crate::layout::Layout;
use lists::memory::vec_of;
use page_model::parts::OutOfMemory;
use std::alloc::Global;

/// The tints of a plane, and whether all of them were found to be at most its maxval.
#[derive(Drop)]
pub struct Copied {
    pub tints: Vec<u16>,
    pub are_fit: bool,
}

/// The samples of a call, of one of the two types.
#[derive(Clone, Copy)]
pub enum Source<'a> {
    Bytes(&'a [u8]),
    Words(&'a [u16]),
}

impl Source<'_> {
    /// The number of samples.
    pub fn count(&self) -> usize
        ensures { result ≡ length (numbers self.now) }
    {
        match self {
            Source::Bytes(bytes) => bytes.len(),
            Source::Words(words) => words.len(),
        }
    }

    /// Copies the tints of plane c, and checks whether all of them are at most the maxval.
    pub fn copy_of(&self, alloc: Global, layout: Layout, c: u32) -> Result<Copied, OutOfMemory>
        requires layout { IsLayout layout }
        requires inside { (c * layout.height + layout.height) * layout.step
            ≤ length (numbers self.now) }
        ensures { IfOk result (IsCopied layout (numbers self.now) c) }
    {
        let mut row = vec_of(alloc, 0u16, layout.width as usize)?;
        let Ok(mut tints) = Vec::with_capacity(alloc, row.len() * layout.height as usize) else {
            return Err(OutOfMemory);
        };
        let are_fit = self.fill(layout, c, row.as_mut_slice(), &mut tints)?;
        Ok(Copied { tints, are_fit })
    }

    // Copies the tints of plane c, row by row. Each row is checked while it is in the cache.
    fn fill(
        &self,
        layout: Layout,
        c: u32,
        row: &mut [u16],
        tints: &mut Vec<u16>,
    ) -> Result<bool, OutOfMemory>
        requires layout { IsLayout layout }
        requires inside { (c * layout.height + layout.height) * layout.step
            ≤ length (numbers self.now) }
        requires row { length row.old ≡ layout.width }
        requires none { tints.old.items ≡ [] }
        ensures tints { OnOk result (tints.new.items ≡ tints_in layout (numbers self.now) c) }
        ensures fit { IfOk result (λ fit. IsTrue fit
            → AreFit layout.maxval (tints_in layout (numbers self.now) c)) }
    {
        let first = c as usize * layout.height as usize;
        let mut are_fit = true;
        for y in 0..layout.height as usize {
            let is_fit = self.add_row(layout, first + y, row, tints)?;
            are_fit = are_fit & is_fit;
        }
        Ok(are_fit)
    }

    // Adds row r to the tints, through a buffer for one row, and returns whether it is at most the maxval.
    fn add_row(
        &self,
        layout: Layout,
        r: usize,
        row: &mut [u16],
        tints: &mut Vec<u16>,
    ) -> Result<bool, OutOfMemory>
        requires inside { r * layout.step + layout.width ≤ length (numbers self.now) }
        requires row { length row.old ≡ layout.width }
        ensures row { length row.new ≡ layout.width }
        ensures tints { OnOk result
            (tints.new.items ≡ tints.old.items ++ row_in layout (numbers self.now) r) }
        ensures fit { IfOk result (λ fit. IsTrue fit
            → AreFit layout.maxval (row_in layout (numbers self.now) r)) }
    {
        self.put_row(layout, r, row);
        match tints.extend_from_slice(row) {
            Ok(()) => Ok(are_fit(row, layout.maxval)),
            Err(_) => Err(OutOfMemory),
        }
    }

    fn put_row(&self, layout: Layout, r: usize, into: &mut [u16])
        requires row { r * layout.step + layout.width ≤ length (numbers self.now) }
        requires wide { length into.old ≡ layout.width }
        ensures { into.new ≡ row_in layout (numbers self.now) r }
    {
        match self {
            Source::Bytes(bytes) => widen(row_of_bytes(bytes, layout, r), into),
            Source::Words(words) => into.copy_from_slice(row_of_words(words, layout, r)),
        }
    }
}

fn row_of_bytes(bytes: &[u8], layout: Layout, r: usize) -> &[u8]
    requires { r * layout.step + layout.width ≤ length bytes.now }
    ensures row { result.now ≡ row_in layout bytes.now r }
    ensures wide { length result.now ≡ layout.width }
{
    let from = r * layout.step as usize;
    &bytes[from..from + layout.width as usize]
}

fn row_of_words(words: &[u16], layout: Layout, r: usize) -> &[u16]
    requires { r * layout.step + layout.width ≤ length words.now }
    ensures row { result.now ≡ row_in layout words.now r }
    ensures wide { length result.now ≡ layout.width }
{
    let from = r * layout.step as usize;
    &words[from..from + layout.width as usize]
}

fn widen(bytes: &[u8], tints: &mut [u16])
    requires { length tints.old ≡ length bytes.now }
    ensures { tints.new ≡ bytes.now }
{
    for (at, byte) in bytes.iter().enumerate() {
        tints[at] = *byte as u16;
    }
}
