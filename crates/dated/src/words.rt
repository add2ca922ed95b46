ghost use Rattle.std.specs.Prelude.{◌^◌, ◌<◌};

// A number of words, 0 to 4,294,967,295.
#[derive(Clone, Copy, PartialEq, Eq, Debug)]
pub struct Words {
    pub number: u32,
    ghost fits: { number < 2 ^ 32 },
}
