// What one row of one plate bares.

ghost use Rattle.std.specs.Prelude.{◌≡◌, ◌+◌, ◌<◌, ◌≤◌, ◌*◌, ◌==◌, ◌&&◌, ℕ, nat_lt, length, slice_index, if◌then◌else◌};
ghost use Rattle.lists.specs.Words.{any_below};
ghost use Rattle.misregister.specs.Risk.{is_near};
ghost use Rattle.misregister.specs.Sweep.{bared_until, is_clear};
ghost use Rattle.misregister.specs.Limits.{most_radius};

/// The first place that none of the first `lead` samples of a row bares.
fn first_reach(row: &[u8], lead: usize, radius: usize) -> usize
    requires lead { lead ≤ length row.now }
    requires radius { radius ≤ most_radius }
    ensures { result ≡ bared_until (is_clear row.now) radius lead }
{
    let mut reach = 0;
    for x in 0..lead {
        if row[x] == 2 {
            reach = x + radius + 1;
        }
    }
    reach
}

/// Writes the value to each place that a sample up to `lead` places ahead bares, as far as that sample is in the row.
fn put_ahead(
    row: &[u8],
    radius: usize,
    lead: usize,
    first: usize,
    value: u32,
    until: &mut [u32],
) -> usize
    requires long { length until.old ≡ length row.now }
    requires lead { lead ≤ length row.now }
    requires radius { radius ≤ most_radius }
    requires first { first ≡ bared_until (is_clear row.now) radius lead }
    ensures reach { result ≡ bared_until (is_clear row.now) radius (length row.now) }
    ensures put { (x : ℕ) → x + lead < length row.now → slice_index until.new x
        ≡ (if nat_lt x (bared_until (is_clear row.now) radius (x + lead + 1))
        then value else slice_index until.old x) }
    ensures kept { (x : ℕ) → length row.now ≤ x + lead
        → slice_index until.new x ≡ slice_index until.old x }
{
    let mut reach = first;
    for x in 0..row.len() - lead {
        if row[x + lead] == 2 {
            reach = x + lead + radius + 1;
        }
        until[x] = if x < reach { value } else { until[x] };
    }
    reach
}

/// Writes the value to the places `from..reach`.
fn put_last(reach: usize, from: usize, value: u32, until: &mut [u32])
    ensures put { (x : ℕ) → from ≤ x → x < length until.old → slice_index until.new x
        ≡ (if nat_lt x reach then value else slice_index until.old x) }
    ensures kept { (x : ℕ) → x < from → slice_index until.new x ≡ slice_index until.old x }
{
    for x in from..until.len() {
        until[x] = if x < reach { value } else { until[x] };
    }
}

/// Writes the value to each place of a row that has a sample without ink within the radius.
pub(crate) fn put_near(row: &[u8], radius: usize, value: u32, until: &mut [u32])
    requires long { length until.old ≡ length row.now }
    requires radius { radius ≤ most_radius }
    ensures { (x : ℕ) → x < length row.now → slice_index until.new x
        ≡ (if any_below
        (λ j. is_near radius x j && is_clear row.now j) (length row.now)
        then value else slice_index until.old x) }
{
    let lead = radius.min(row.len());
    let first = first_reach(row, lead, radius);
    let reach = put_ahead(row, radius, lead, first, value, until);
    put_last(reach, row.len() - lead, value, until);
}
