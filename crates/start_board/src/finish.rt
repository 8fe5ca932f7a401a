// The finish panels' calls: the answer of the function of `finish_panel` as a word.
ghost use Rattle.std.specs.Prelude.{◌≡◌};
ghost use Rattle.finish_panel.specs.Update.{answer_given, normal_update, fast_update};
ghost use Rattle.start_board.specs.Words.{as_word};
ghost use Rattle.start_board.specs.Finish.{finish_word};

use crate::words;
use finish_panel::Given;
use refusal::Refusal;

// An answer as a word.
fn finish_word(answer: Result<Given, Refusal>) -> u32
    ensures { result ≡ finish_word (answer_given answer) }
{
    match answer {
        Err(refusal) => words::make_word(0, u32::from(refusal.number())),
        Ok(Given::Write(n)) => words::make_word(1, u32::from(n)),
        Ok(Given::Delay(ms)) => words::make_word(2, u32::from(ms)),
        Ok(Given::BusyHigh) => words::make_word(3, 0),
        Ok(Given::Done) => words::make_word(4, 0),
    }
}

// Normal mode: the thing that comes after `given` others. Two exports, one a mode, as the C interface has them.
#[unsafe(no_mangle)]
pub extern "C" fn epd_normal_update(
    otp: &[u8],
    temperature: i32,
    new: &[u8],
    given: u32,
    out: &mut [u8],
) -> u32
    ensures { (result, out.new)
        ≡ as_word finish_word (normal_update otp.now temperature new.now given out.old) }
{
    finish_word(finish_panel::normal_update(otp, temperature, new, given, out))
}

// Fast mode, from the shown picture to the new one.
#[unsafe(no_mangle)]
pub extern "C" fn epd_fast_update(
    otp: &[u8],
    temperature: i32,
    new: &[u8],
    shown: &[u8],
    given: u32,
    out: &mut [u8],
) -> u32
    ensures { (result, out.new)
        ≡ as_word finish_word
        (fast_update otp.now temperature new.now shown.now given out.old) }
{
    finish_word(finish_panel::fast_update(otp, temperature, new, shown, given, out))
}
