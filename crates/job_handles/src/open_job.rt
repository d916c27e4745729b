ghost use Rattle.std.specs.Prelude.{◌≡◌, Ok};
ghost use Rattle.std.specs.Coded.{Coded-set};
ghost use Rattle.job_reader.specs.Jobs.{job_of};
ghost use Rattle.job_handles.specs.Reads.{read_coded};

use job_reader::job::Job;

/// A job that was read, and the bytes that it was read from.
#[derive(Drop)]
pub struct OpenJob {
    pub bytes: Vec<u8>,
    pub job: Job,
    pub ghost read: { job_of bytes.items ≡ Ok job } by { Coded-set read_coded (job_of bytes.items) (Ok job) },
}
