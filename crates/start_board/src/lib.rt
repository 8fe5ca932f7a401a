// The calls for firmware in C: include/start_board.h declares them. Each promises what the function that it calls does. Panels, kinds and
// refusals are numbers here, since C calls with them.
#![tactic(auto)]

ghost use Rattle.std.specs.Prelude.{◌≡◌};
ghost use Rattle.wire.specs.Builder.{build_line};
ghost use Rattle.settings.specs.Settings.{check_settings};
ghost use Rattle.bitmap.specs.Bitmap.{check_bitmap};

mod finish;
mod hall;
mod mending;
mod words;

// The line of a picture row in a stage: 0; or 14, an argument out of range; or 11, the output too short.
#[unsafe(no_mangle)]
pub extern "C" fn epd_build_line(
    panel: u32,
    stage: u32,
    row: u32,
    dots: &[u8],
    out: &mut [u8],
) -> u8
    ensures { (result, out.new) ≡ build_line panel stage row dots.now out.old }
{
    refusal::number_given(wire::build_line(panel, stage, row, dots, out))
}

// The settings check: 0, or 2 where the file breaks a rule.
#[unsafe(no_mangle)]
pub extern "C" fn epd_check_settings(file: &[u8]) -> u8
    ensures { result ≡ check_settings file.now }
{
    refusal::number_given(settings::check_settings(file))
}

// The bitmap check: 0; or 14, no such panel; or 4, the file breaks a rule.
#[unsafe(no_mangle)]
pub extern "C" fn epd_check_bitmap(panel: u32, file: &[u8]) -> u8
    ensures { result ≡ check_bitmap panel file.now }
{
    refusal::number_given(bitmap::check_bitmap(panel, file))
}
