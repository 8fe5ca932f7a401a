// What an update of the 5.81" and 7.41" panels is refused for, and the index of a temperature.
#![tactic(auto)]

ghost use Rattle.std.specs.Prelude.{◌≡◌, ◌≤◌, IfOk};
ghost use Rattle.lists.specs.Rules.{first_of};
ghost use Rattle.refusal.specs.Numbers.{number_given};
ghost use Rattle.finish_rules.specs.Rules.{
  good_in,
  index_in,
  index_of,
  stage_good,
  stages_good,
  is_picture,
  refusals,
  Accepted,
};

use refusal::Refusal;

// How an update goes from one picture to the next.
#[derive(Clone, Copy, Debug, PartialEq, Eq)]
pub enum Mode {
    Normal,
    Fast,
}

// ---- the refusals

// Whether the REPEAT and the DELAY byte of the stage at `at` have bit 7 set.
#[tactic(auto, unfolding(crate::specs::Rules::stage_good))]
fn stage_good(otp: &[u8; 128], at: usize) -> bool
    requires { at ≤ 0x40 }
    ensures { result ≡ stage_good otp.now at }
{
    0x80 <= otp[at] && 0x80 <= otp[at + 7]
}

// Whether those of all four stages have.
#[tactic(auto, unfolding(crate::specs::Rules::stages_good))]
fn stages_good(otp: &[u8; 128]) -> bool
    ensures { result ≡ stages_good otp.now }
{
    stage_good(otp, 0x28) && stage_good(otp, 0x30) && stage_good(otp, 0x38) && stage_good(otp, 0x40)
}

// Whether a length is that of a 5.81" or of a 7.41" picture.
#[tactic(auto, unfolding(crate::specs::Rules::is_picture))]
fn is_picture(n: usize) -> bool
    ensures { result ≡ is_picture n }
{
    n == 23040 || n == 48000
}

// The first refusal that applies at every count; where none does, the temperature's index.
pub fn check(
    otp: &[u8; 128],
    mode: Mode,
    temperature: i32,
    new_length: usize,
    shown_length: usize,
) -> Result<u8, Refusal>
    ensures number { number_given result
        ≡ first_of (refusals otp.now (good_in mode temperature) new_length shown_length) (λ number. number) 0 }
    ensures accepted { IfOk result (λ index.
        Accepted otp.now (good_in mode temperature) new_length shown_length × (index ≡ index_in mode temperature)) }
{
    if !stages_good(otp) {
        return Err(Refusal::OtpByte);
    }
    let Some(index) = mode.index(temperature) else {
        return Err(Refusal::Temperature);
    };
    if !is_picture(new_length) || new_length != shown_length {
        return Err(Refusal::Pictures);
    }
    Ok(index)
}

// ---- the temperature

impl Mode {
    // A temperature's index, where the mode takes the temperature.
    pub fn index(self, temperature: i32) -> Option<u8>
        ensures { result ≡ index_of self temperature }
    {
        match (self, temperature) {
            (Mode::Normal, -15..=60) => Some(0x25.max(0x28 + temperature) as u8),
            (Mode::Fast, 0..=50) => Some((0xA8 + temperature) as u8),
            _ => None,
        }
    }
}
