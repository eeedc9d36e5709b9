ghost use Rattle.std.specs.Prelude.{◌≡◌, ℕ};

/// What gives each symbol the coefficients of its polynomial: a symbol f with n arguments stands for
/// c f 0 + c f 1 * x1 + .. + c f n * xn. (Baader and Nipkow, section 5.3.)
pub trait Coefficients {
    /// Where the coefficients of a symbol stand.
    type Row: Copy;

    ghost coefficient: { Self → ℕ → ℕ → ℕ };

    ghost in_row: { Self → Self.Row → ℕ → ℕ };

    /// The row of a symbol.
    fn row(&self, f: u32) -> Self::Row
        ensures { (i : ℕ) → in_row self.now result i ≡ coefficient self.now f i };

    /// In a row the coefficient of argument i, counted from 1, or the constant at 0.
    fn at(&self, row: Self::Row, i: usize) -> u64
        ensures { result ≡ in_row self.now row i };
}
