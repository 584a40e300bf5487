//! What the split asks of a key.
ghost use Rattle.std.specs.Prelude.{◌≡◌, ◌≤◌, ◌<◌, ◌^◌, ℕ, Bool, true, All, List, length};

/// A key that can be joined with another, and has a size.
pub trait Measure: Copy {
    /// What bounds the unions with some keys.
    type Frame: Copy;

    /// The union of two keys.
    ghost joined: { Self → Self → Self };

    /// The size of a key.
    ghost extent: { Self → ℕ };

    /// Whether a frame is one of these keys.
    ghost frames: { Self.Frame → List Self → Type 0 };

    /// Whether sizes are short: each is below 2^64.
    ghost SHORT: { Bool };

    const SHORT: bool;

    /// The union of the two, which is no smaller than either.
    fn join(&self, other: &Self) -> Self
        ensures value { result ≡ joined self.now other.now }
        ensures no_smaller { extent self.now ≤ extent (joined self.now other.now) };

    /// True only if the union of the two is this key.
    fn covers(&self, other: &Self) -> bool
        ensures { result ≡ true → joined self.now other.now ≡ self.now };

    /// The size, below 2^126, and below 2^64 if sizes are short.
    fn size(&self) -> u128
        ensures value { result ≡ extent self.now }
        ensures bound { extent self.now < 2 ^ 126 }
        ensures short { SHORT ≡ true → extent self.now < 2 ^ 64 };

    /// A frame of some keys.
    fn frame(keys: &[Self]) -> Self::Frame
        requires { 0 < length keys.now }
        ensures { frames result keys.now };

    /// A size, below 2^126, that the union with none of a frame's keys exceeds.
    fn reach(&self, frame: &Self::Frame) -> u128
        ensures most { (keys : List Self) → frames frame.now keys
            → All (λ other. extent (joined self.now other) ≤ result) keys }
        ensures bound { result < 2 ^ 126 };
}
