ghost use Rattle.std.specs.Prelude.{◌≡◌, ℕ, Bool, true};

/// What has a number: a pair of who gave it and of how many that had given before.
pub trait Numbered: Copy {
    /// The number.
    ghost number: { Self → ℕ × ℕ };

    /// Whether two are one, by all of their content.
    ghost same: { Self → Self → Bool };

    /// The number.
    fn number(&self) -> (u16, u32)
        ensures { result ≡ number self.now };

    /// Whether two are one, by all of their content.
    fn is_same(&self, other: &Self) -> bool
        ensures { result ≡ same self.now other.now };

    ghost same_is_one: { (a b : Self) → same a b ≡ true → a ≡ b };

    ghost one_is_same: { (a : Self) → same a a ≡ true };
}
