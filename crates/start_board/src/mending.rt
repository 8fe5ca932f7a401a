// Mending's call: the answer of the function of `mend` as one number.
ghost use Rattle.std.specs.Prelude.{◌≡◌, ◌≤◌};
ghost use Rattle.mend.specs.Answers.{told_by, mending};
ghost use Rattle.start_board.specs.Mending.{packed, Small, mended_number, as_number};

use mend::Mended;
use refusal::Refusal;

// Four numbers of 16 bits in one of 64, the first in the highest. `as`, since usize has no From into u64.
fn packed(number: u8, changes: usize, offset: usize, added: usize) -> u64
    requires { (changes ≤ 6398) × (offset ≤ 6398) × (added ≤ 6398) }
    ensures { result ≡ packed number changes offset added }
{
    let one = u64::from(number);
    let two = one * 0x1_0000 + changes as u64;
    let three = two * 0x1_0000 + offset as u64;
    three * 0x1_0000 + added as u64
}

// An answer as a number of 64 bits: that of the refusal or 0, how many bytes changed, and the offset and the count of those added.
fn mended_number(answer: Result<Mended, Refusal>) -> u64
    requires { Small (told_by answer) }
    ensures { result ≡ mended_number (told_by answer) }
{
    match answer {
        Ok(mended) => match mended.added {
            Some(added) => packed(0, mended.changes, added.offset, added.count),
            None => packed(0, mended.changes, 0, 0),
        },
        Err(refusal) => packed(refusal.number(), 0, 0, 0),
    }
}

// Mends a damaged bitmap file for a panel, and lists the changed bytes.
#[unsafe(no_mangle)]
pub extern "C" fn epd_mend_bitmap(panel: u32, file: &[u8], out: &mut [u8], list: &mut [u8]) -> u64
    ensures { (result, out.new, list.new)
        ≡ as_number (mending panel file.now out.old list.old) }
{
    mended_number(mend::mend(panel, file, out, list))
}
