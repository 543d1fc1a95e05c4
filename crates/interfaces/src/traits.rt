// Each trait has a ghost member for what it means, a fixed function.
// To ask changes nothing, and no question is refused.
ghost use Rattle.std.specs.Prelude.{◌≡◌, Bool};

// An answer of a second kind for each value of a first.
pub trait Operation {
    type Element: Copy;

    type Value: Copy;

    ghost answer: { Self → Self.Element → Self.Value };

    fn apply(&self, element: Self::Element) -> Self::Value
        ensures { result ≡ answer self.now element };
}

// Yes or no for each value of a kind.
pub trait Test {
    type Element: Copy;

    ghost passing: { Self → Self.Element → Bool };

    fn passes(&self, element: Self::Element) -> bool
        ensures { result ≡ passing self.now element };
}

// A way to join two values of a kind into one, and a neutral value. The order of the two may matter.
pub trait Joining {
    type Value: Copy;

    ghost zero: { Self → Self.Value };

    ghost joined: { Self → Self.Value → Self.Value → Self.Value };

    fn neutral(&self) -> Self::Value
        ensures { result ≡ zero self.now };

    fn join(&self, a: Self::Value, b: Self::Value) -> Self::Value
        ensures { result ≡ joined self.now a b };

    // grouping does not matter
    ghost assoc: { (j : Self) (a b c : Self.Value) →
        joined j (joined j a b) c ≡ joined j a (joined j b c) };

    // the neutral value changes nothing, on either side
    ghost left: { (j : Self) (a : Self.Value) → joined j (zero j) a ≡ a };

    ghost right: { (j : Self) (a : Self.Value) → joined j a (zero j) ≡ a };
}
