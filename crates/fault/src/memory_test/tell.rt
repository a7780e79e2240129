//! The number of a memory test.
ghost use Rattle.std.specs.Prelude.{◌≡◌};
ghost use Rattle.fault.specs.Refusals.{test_number};

use super::MemoryTest;

impl MemoryTest {
    /// The number of this test, counted from 1.
    // A method and no `From`: callers name it. `as u8` alone counts from 0, and promises nothing.
    pub fn number(self) -> u8
        ensures { result ≡ test_number self }
    {
        self as u8 + 1
    }
}
