// An order says of two elements which comes first. The library's `Ord` does not do: its laws say of two elements that
// neither comes before the other that they are equal, and not that they are the same.
ghost use Rattle.std.specs.Prelude.{◌≡◌, Bool, true, false, not, ◌≢◌};

pub trait Order {
    // Whether the first element comes before the second.
    ghost before: { Self → Self → Bool };

    fn precedes(&self, other: &Self) -> bool
        ensures { result ≡ before self.now other.now };

    ghost transitive: { (x y z : Self) → before x y ≡ true → before y z ≡ true → before x z ≡ true };

    // Of two different elements exactly one comes before the other.
    ghost one: { (x y : Self) → (x ≢ y) → before x y ≡ not (before y x) };

    // None comes before itself.
    ghost irreflexive: { (x : Self) → before x x ≡ false };
}
