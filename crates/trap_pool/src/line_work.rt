ghost use Rattle.std.specs.Prelude.{ℕ};

/// What a worker does with a line that it took.
pub trait LineWork<K> {
    /// What may be made of line number n.
    ghost makes: { Self → ℕ → K → Type 0 };

    /// Makes the result of a line. Any number may come: a worker knows nothing of the lines in the queue.
    fn make(&self, line: u32) -> K
        ensures { makes self.now line result };
}
