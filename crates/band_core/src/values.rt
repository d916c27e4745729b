// The types of the values in cells.
ghost use Rattle.std.specs.Prelude.{◌≡◌, ℕ, ◌<◌, ◌^◌, List, length, map, replicate};
ghost use Rattle.std.proofs.lemmas.List.{map-id};

/// The type of a cell's values in memory: a byte for zones and marks, 16 bits for column answers and tints.
pub trait CellValue: Copy + Drop {
    /// The number of its bits.
    ghost width: { ℕ };

    /// The number that a value is.
    ghost number: { Self → ℕ };

    /// The numbers of several values, in order.
    ghost numbers: { List Self → List ℕ };

    /// The value as a number.
    fn to_u64(self) -> u64
        ensures { result ≡ number self };

    /// The value of a number.
    fn from_u64(value: u64) -> Self
        requires { value < 2 ^ width }
        ensures { number result ≡ value };

    /// Sets all values to 0.
    fn clear(values: &mut [Self])
        ensures { numbers values.new ≡ replicate (length values.old) 0 };

    /// Number k of several values is the number of value k.
    ghost each: { (xs : List Self) → map number xs ≡ numbers xs };
}

impl CellValue for u8 {
    ghost width = { 8 };

    ghost number = { λ x. x };

    ghost numbers = { λ xs. xs };

    ghost each = { map-id };

    fn to_u64(self) -> u64 {
        self as u64
    }

    fn from_u64(value: u64) -> u8 {
        value as u8
    }

    fn clear(values: &mut [u8]) {
        values.fill(0);
    }
}

impl CellValue for u16 {
    ghost width = { 16 };

    ghost number = { λ x. x };

    ghost numbers = { λ xs. xs };

    ghost each = { map-id };

    fn to_u64(self) -> u64 {
        self as u64
    }

    fn from_u64(value: u64) -> u16 {
        value as u16
    }

    fn clear(values: &mut [u16]) {
        values.fill(0);
    }
}
