ghost use Rattle.std.specs.Prelude.{IsTrue, ◌≡◌, ◌≤◌, ◌<◌, ◌+◌, ◌*◌, ◌/◌, length, slice_index, IfNone, IfSome};
ghost use Rattle.std.specs.List.{All};
ghost use Rattle.pgm_plates.specs.Plates.{sample_size as bytes_of_sample};
ghost use Rattle.pgm_plates.specs.Readers.{Fit, FirstAbove, IsDecoded, samples_spelled, wide_samples};

use page_model::bounds::MOST_MAXVAL;

/// The number of bytes of a sample: 1 where the maxval is below 256, else 2 (pgm(5), section THE FORMAT).
pub fn sample_size(maxval: u32) -> usize
    ensures { result ≡ bytes_of_sample maxval }
{
    if maxval < 256 { 1 } else { 2 }
}

/// The index of the first sample above the maxval among the whole samples that these bytes encode.
pub fn first_above(bytes: &[u8], maxval: u32) -> Option<usize>
    ensures decoded { IsDecoded maxval bytes.now (samples_spelled maxval bytes.now) }
    ensures fit { IfNone result (Fit maxval (samples_spelled maxval bytes.now)) }
    ensures above { IfSome result (FirstAbove maxval (samples_spelled maxval bytes.now)) }
    ensures within { IfSome result (λ at. at < length bytes.now) }
{
    are_bytes(bytes);
    if are_fit(bytes, maxval) {
        return None;
    }
    for at in 0..bytes.len() / sample_size(maxval) {
        if sample_at(bytes, maxval, at) > maxval {
            return Some(at);
        }
    }
    None
}

fn sample_at(bytes: &[u8], maxval: u32, at: usize) -> u32
    requires { at < length bytes.now / bytes_of_sample maxval }
    ensures { result ≡ slice_index (samples_spelled maxval bytes.now) at }
{
    if maxval < 256 {
        bytes[at] as u32
    } else {
        wide_at(bytes, at) as u32
    }
}

fn wide_at(bytes: &[u8], at: usize) -> u16
    requires { 2 * at + 1 < length bytes.now }
    ensures { result ≡ slice_index (wide_samples bytes.now) at }
{
    bytes[2 * at] as u16 * 256 + bytes[2 * at + 1] as u16
}

// Whether no sample is above the maxval.
fn are_fit(bytes: &[u8], maxval: u32) -> bool
    ensures { IsTrue result → Fit maxval (samples_spelled maxval bytes.now) }
{
    if maxval < 256 {
        are_narrow_fit(bytes, maxval)
    } else {
        are_wide_fit(bytes, maxval)
    }
}

// No byte is above 255, so none has to be looked at.
fn are_narrow_fit(bytes: &[u8], maxval: u32) -> bool
    ensures { IsTrue result → Fit maxval bytes.now }
{
    if maxval == 255 {
        true
    } else {
        most_narrow(bytes) as u32 <= maxval
    }
}

fn are_wide_fit(bytes: &[u8], maxval: u32) -> bool
    ensures { IsTrue result → Fit maxval (wide_samples bytes.now) }
{
    are_bytes(bytes);
    if maxval == MOST_MAXVAL {
        true
    } else {
        most_wide(bytes) as u32 <= maxval
    }
}

fn most_narrow(bytes: &[u8]) -> u8
    ensures { Fit result bytes.now }
{
    let mut most = 0u8;
    for byte in bytes {
        most = most.max(*byte);
    }
    most
}

#[tactic(auto, using(crate::proofs::Spelled::wide_size))]
fn most_wide(bytes: &[u8]) -> u16
    ensures { Fit result (wide_samples bytes.now) }
{
    let mut most = 0u16;
    for at in 0..bytes.len() / 2 {
        most = most.max(wide_at(bytes, at));
    }
    most
}

// That bytes are below 256: no code, but a clause for proofs.
fn are_bytes(bytes: &[u8])
    ensures { All (λ b. b < 256) bytes.now }
{}

/// Decodes bytes into samples, one or two bytes each, the more significant first (pgm(5), section THE FORMAT).
pub fn decode(bytes: &[u8], maxval: u32, samples: &mut [u16])
    requires { length bytes.now ≡ length samples.old * bytes_of_sample maxval }
    ensures { samples.new ≡ samples_spelled maxval bytes.now }
{
    if maxval < 256 {
        decode_narrow(bytes, samples);
    } else {
        decode_wide(bytes, samples);
    }
}

fn decode_narrow(bytes: &[u8], samples: &mut [u16])
    requires { length samples.old ≡ length bytes.now }
    ensures { samples.new ≡ bytes.now }
{
    for (at, byte) in bytes.iter().enumerate() {
        samples[at] = *byte as u16;
    }
}

#[tactic(auto, using(crate::proofs::Spelled::wide_size))]
fn decode_wide(bytes: &[u8], samples: &mut [u16])
    requires { length bytes.now ≡ 2 * length samples.old }
    ensures { samples.new ≡ wide_samples bytes.now }
{
    for at in 0..samples.len() {
        samples[at] = wide_at(bytes, at);
    }
}
