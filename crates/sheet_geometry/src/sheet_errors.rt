use page_model::page::PageFault;

/// Why a sheet can't be trapped. Zones are numbered from 0.
#[derive(Clone, Copy, Drop)]
pub enum SheetError {
    /// A fault that the sheet would have as a page, apart from the number of samples.
    Fault(PageFault),
    /// The sheet is above the limits of a page, and this zone has a vertex too far from a corner of the sheet.
    Far(u32),
    /// The sheet is above the limits of a page and has paths, and the step at the sheet's
    /// resolution is above 2,048 samples.
    Uncut,
}
