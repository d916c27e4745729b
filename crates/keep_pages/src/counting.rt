// What is counted of a page: entries of lists.

ghost use Rattle.std.specs.Prelude.{◌≡◌, ◌≤◌, ◌==◌, not, length, slice_index};
ghost use Rattle.lists.specs.Words.{count_below};
ghost use Rattle.page_model.specs.Limits.{most_samples};

/// How many entries differ.
pub(crate) fn count_changed(old: &[u16], new: &[u16]) -> u64
    requires long { length new.now ≡ length old.now }
    requires few { length old.now ≤ most_samples }
    ensures { result
        ≡ count_below (λ k. not (slice_index new.now k == slice_index old.now k)) (length old.now) }
{
    let mut count = 0;
    for k in 0..old.len() {
        count += u32::from(new[k] != old[k]);
    }
    u64::from(count)
}

/// How many entries are not 0.
pub(crate) fn count_covered(marks: &[u8]) -> u64
    requires { length marks.now ≤ most_samples }
    ensures { result ≡ count_below (λ k. not (slice_index marks.now k == 0)) (length marks.now) }
{
    let mut count = 0;
    for k in 0..marks.len() {
        count += u32::from(marks[k] != 0);
    }
    u64::from(count)
}
