// The one number that a call for C gives back where it answers one of several things.
ghost use Rattle.std.specs.Prelude.{◌≡◌, ◌<◌, ◌^◌};
ghost use Rattle.start_board.specs.Words.{word};

// A kind in the top byte, and its value below.
pub fn make_word(kind: u8, value: u32) -> u32
    requires { value < 2 ^ 24 }
    ensures { result ≡ word kind value }
{
    u32::from(kind) * 0x0100_0000 + value
}
