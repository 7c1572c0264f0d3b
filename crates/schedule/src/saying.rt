// Where a text is wrong.
ghost use Rattle.std.specs.Prelude.{◌≡◌};
ghost use Rattle.schedule.specs.Saying.{spot_of};

use crate::Spot;
use crate::token::Reader;

impl Reader<'_> {
    // The line and the column of its place.
    pub fn spot(&self) -> Spot
        ensures { result ≡ spot_of self.now.text.now self.now.at }
    {
        let mut spot = Spot { line: 1, column: 1 };
        for &byte in self.bytes(0, self.at) {
            if byte == b'\n' {
                spot.line += 1;
                spot.column = 1;
            } else {
                spot.column += 1;
            }
        }
        spot
    }
}
