mod methods;

ghost use Rattle.std.specs.Prelude.{◌^◌, ◌<◌};
ghost use Rattle.std.specs.Int.Signed.{mag};

// An amount of money in cents, which may be negative: any number of 64 bits, signed.
// The ghost field says just that, so that laws of sums need no premise: `mag` is `n` both at `n` and at `-(n + 1)`.
#[derive(Clone, Copy, PartialEq, Eq, PartialOrd, Ord, Hash, Debug)]
pub struct Cents {
    cents: i64,
    ghost fits: { mag cents < 2 ^ 63 },
}
