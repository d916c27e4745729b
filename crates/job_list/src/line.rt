ghost use Rattle.std.specs.Prelude.{◌≡◌, ◌<◌, Some, length, map, slice_get, string_bytes};
ghost use Rattle.job_list.specs.Lines.{HasPlates, line_with};

use lists::list::List;
use lists::names::NameList;
use std::marker::Model;

/// A line of a list: the job's file, the file of its report, and for one to sixteen plates the colorants' names, the
/// files that are read and those that are written. Contracts see their bytes.
#[derive(Drop)]
pub struct ListLine {
    pub(crate) job: String,
    pub(crate) report: String,
    pub(crate) names: NameList,
    pub(crate) inputs: Vec<String>,
    pub(crate) outs: Vec<String>,
}

impl Model for ListLine {
    ghost use Rattle.std.specs.Prelude.{map, string_bytes};
    ghost use Rattle.job_list.specs.Lines.{HasPlates, LineParts, line_parts};

    ghost Value = { LineParts };

    ghost view = { λ l. line_parts (string_bytes l.job) (string_bytes l.report) l.names
        (map string_bytes l.inputs.items) (map string_bytes l.outs.items) };

    ghost invariant = { λ l. HasPlates (line_parts (string_bytes l.job) (string_bytes l.report)
        l.names (map string_bytes l.inputs.items) (map string_bytes l.outs.items)) };
}

/// Jobs, in the order of their lines.
pub type LineList = List<ListLine>;

impl ListLine {
    /// The job's file.
    pub fn job(&self) -> &str
        ensures value { result.now ≡ self.now.job }
        ensures plates { HasPlates self.now }
    {
        self.job.as_str()
    }

    /// The file of the job's report.
    pub fn report(&self) -> &str
        ensures { result.now ≡ self.now.report }
    {
        self.report.as_str()
    }

    /// The names of the plates' colorants.
    pub fn names(&self) -> &NameList
        ensures { result.now ≡ self.now.names }
    {
        &self.names
    }

    /// The files that the plates are read from.
    pub fn inputs(&self) -> &[String]
        ensures { map string_bytes result.now ≡ self.now.inputs }
    {
        self.inputs.as_slice()
    }

    /// The files that the plates are written to.
    pub fn outs(&self) -> &[String]
        ensures { map string_bytes result.now ≡ self.now.outs }
    {
        self.outs.as_slice()
    }

    /// The file that plate k is written to, counted from 0.
    pub fn out(&self, k: u32) -> &str
        requires { k < length self.now.outs }
        ensures { slice_get self.now.outs k ≡ Some result.now }
    {
        self.outs[k as usize].as_str()
    }
}
