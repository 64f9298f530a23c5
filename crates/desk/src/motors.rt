// The motor commands of a strip reading, as wide as the cells of a report, so that both are shown alike.
ghost use Rattle.std.specs.Prelude.{◌≡◌};

use terminals::STRIP;

pub(crate) const OFF: u8 = 0;

pub(crate) fn widened(motors: [u8; STRIP]) -> [u16; STRIP]
    ensures { result ≡ motors }
{
    motors.map(|motor| u16::from(motor))
}
