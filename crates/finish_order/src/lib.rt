// The order of an update of the 5.81" and 7.41" panels: the step at each place, for the code that gives it out.
#![tactic(auto)]

ghost use Rattle.std.specs.Prelude.{◌≡◌, ℕ, ◌+◌, ◌*◌, ◌%◌, ◌≤◌, ◌<◌, List, length};
ghost use Rattle.finish_order.specs.Order.{otp_byte, stage, things_of};
ghost use Rattle.finish_order.specs.Facts.{StandsFor, before_start, after_start, from_start};

// A thing of an update, small enough to stand in a table. A write has its register first, then where its data comes from: one byte
// or two; the n bytes of the OTP memory from an index on; DCTL and 0; the temperature's index; the new picture; or what goes to the
// second frame.
#[derive(Clone, Copy)]
pub enum Step {
    Byte(u8, u8),
    Pair(u8, u8, u8),
    Otp(u8, u8, u8),
    Dctl(u8),
    Index(u8),
    New(u8),
    Second(u8),
    Delay(u16),
    BusyHigh,
    Done,
}

// What comes before the soft start.
const BEFORE: [Step; 33] = [
    Step::Dctl(0x01),
    Step::Otp(0x13, 0x15, 6),
    Step::Otp(0x90, 0x0C, 4),
    Step::Otp(0x12, 0x12, 3),
    Step::New(0x10),
    Step::Otp(0x12, 0x12, 3),
    Step::Second(0x11),
    Step::Byte(0x05, 0x7D),
    Step::Delay(50),
    Step::Byte(0x05, 0x00),
    Step::Delay(1),
    Step::Otp(0xD8, 0x1C, 1),
    Step::Otp(0xD6, 0x1D, 1),
    Step::Byte(0xA7, 0x10),
    Step::Delay(2),
    Step::Byte(0xA7, 0x00),
    Step::Delay(10),
    Step::Byte(0x44, 0x00),
    Step::Byte(0x45, 0x80),
    Step::Byte(0xA7, 0x10),
    Step::Delay(2),
    Step::Byte(0xA7, 0x00),
    Step::Delay(10),
    Step::Byte(0x44, 0x06),
    Step::Index(0x45),
    Step::Byte(0xA7, 0x10),
    Step::Delay(2),
    Step::Byte(0xA7, 0x00),
    Step::Delay(10),
    Step::Otp(0x60, 0x0B, 1),
    Step::Otp(0x61, 0x1B, 1),
    Step::Otp(0x02, 0x11, 1),
    Step::Otp(0x03, 0x1F, 1),
];

// What comes after it: the update command, and the stop of DC/DC.
const AFTER: [Step; 8] = [
    Step::BusyHigh, // before the update command
    Step::Byte(0x15, 0x3C),
    Step::BusyHigh, // before the stop
    Step::Byte(0x09, 0x7B),
    Step::Byte(0x05, 0x5D),
    Step::Byte(0x09, 0x7A),
    Step::Delay(15),
    Step::Byte(0x09, 0x00),
];

// ---- the step at a place of the order

// The step at place k of what comes before the soft start, and of what comes after it.
fn step_before(k: usize) -> Step
    requires { k < 33 }
    ensures { (otp : List ℕ) → StandsFor otp result (before_start otp) k }
{
    BEFORE[k]
}

fn step_after(k: usize) -> Step
    ensures { (otp : List ℕ) → StandsFor otp result (λ _ _ _. after_start) k }
{
    AFTER.get(k).copied().unwrap_or(Step::Done)
}

// The low seven bits of a REPEAT or a DELAY byte.
fn low_seven(byte: u8) -> u16
    ensures { (result ≡ byte % 128) × (result < 128) }
{
    u16::from(byte % 128)
}

// The value of a phase at a repeat of its stage, counted from 1. Its initial value is at `at`, its variation two bytes further on.
fn phase(otp: &[u8; 128], at: usize, turn: usize) -> u8
    requires { (at + 2 < 128) × (turn ≤ 127) }
    ensures { result ≡ (otp_byte otp.now at + turn * otp_byte otp.now (at + 2)) % 256 }
{
    ((usize::from(otp[at]) + turn * usize::from(otp[at + 2])) % 256) as u8
}

// How many things the stage at `at` gives out.
fn stage_length(otp: &[u8; 128], at: usize) -> usize
    requires { at < 128 }
    ensures { (result ≡ length (stage otp.now at)) × (result ≤ 508) }
{
    4 * usize::from(low_seven(otp[at]))
}

// The step at place k of the stage at `at`.
fn stage_step(otp: &[u8; 128], at: usize, k: usize) -> Step
    requires { (at + 8 ≤ 128) × (k < length (stage otp.now at)) }
    ensures { StandsFor otp.now result (λ _ _ _. stage otp.now at) k }
{
    let turn = k / 4 + 1;
    match k % 4 {
        0 => Step::Byte(0x09, otp[at + 5]),
        1 => Step::Pair(0x51, phase(otp, at + 1, turn), phase(otp, at + 2, turn)),
        2 => Step::Byte(0x09, otp[at + 6]),
        _ => Step::Delay(low_seven(otp[at + 7])),
    }
}

// The step at place k of the soft start and what comes after it. At most four stages are passed, each by one subtraction.
fn step_from_start(otp: &[u8; 128], k: usize) -> Step
    ensures { StandsFor otp.now result (λ _ _ _. from_start otp.now) k }
{
    let mut left = k;
    for at in [0x28, 0x30, 0x38, 0x40] {
        let n = stage_length(otp, at);
        if left < n {
            return stage_step(otp, at, left);
        }
        left -= n;
    }
    step_after(left)
}

// The step at place k of an update.
pub fn step_at(otp: &[u8; 128], k: usize) -> Step
    ensures { StandsFor otp.now result (things_of otp.now) k }
{
    if k < 33 {
        return step_before(k);
    }
    step_from_start(otp, k - 33)
}
