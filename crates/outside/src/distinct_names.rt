ghost use Rattle.std.specs.Prelude.{◌≡◌, ◌≢◌, ◌<◌, ◌↔◌, ℕ, IsTrue, length};
ghost use Rattle.outside.specs.MemFiles.{HaveDistinctNames, file_at};

use crate::mem_file::MemFile;

/// Whether no two of the files have one name.
pub fn have_distinct_names(files: &[MemFile]) -> bool
    ensures { IsTrue result ↔ HaveDistinctNames files.now }
{
    for place in 0..files.len() {
        if !is_new(files, place) {
            return false;
        }
    }
    true
}

// Whether no earlier file has the name of the one at that place.
fn is_new(files: &[MemFile], place: usize) -> bool
    requires { place < length files.now }
    ensures { let name = (file_at files.now place).name in
        IsTrue result ↔ ((k : ℕ) → k < place → (file_at files.now k).name ≢ name) }
{
    for earlier in 0..place {
        if has_same_name(&files[earlier], &files[place]) {
            return false;
        }
    }
    true
}

fn has_same_name(one: &MemFile, other: &MemFile) -> bool
    ensures { IsTrue result ↔ (one.now.name ≡ other.now.name) }
{
    one.name.as_slice() == other.name.as_slice()
}
