ghost use Rattle.std.specs.Prelude.{◌≡◌, ℕ, ◌+◌, ◌^◌, ◌<◌, length, slice_index};

/// Adds `more[k]` to each `counts[k]`.
pub fn add_counts(counts: &mut [u64], more: &[u64])
    requires len { length more.now ≡ length counts.old }
    requires few { (z : ℕ) → z < length counts.old
        → slice_index counts.old z + slice_index more.now z < 2 ^ 64 }
    ensures len { length counts.new ≡ length counts.old }
    ensures each { (z : ℕ) → z < length counts.old → slice_index counts.new z
        ≡ slice_index counts.old z + slice_index more.now z }
{
    for z in 0..counts.len() {
        counts[z] += more[z];
    }
}
