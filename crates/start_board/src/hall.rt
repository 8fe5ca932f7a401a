// The hall display's calls: the answers of `hall_display`, `hall_commands` and `hall_checksum` as numbers and words.
ghost use Rattle.std.specs.Prelude.{◌≡◌};
ghost use Rattle.hall_checksum.specs.Checksum.{checksum_from};
ghost use Rattle.hall_commands.specs.Reading.{reader_at, reading};
ghost use Rattle.hall_display.specs.Upload.{answer_of, uploading};
ghost use Rattle.refusal.specs.Numbers.{number_given};
ghost use Rattle.start_board.specs.Words.{as_word};
ghost use Rattle.start_board.specs.Hall.{header_put, command_word, read_word};

use crate::words;
use hall_commands::Reader;
use refusal::Refusal;

// Puts the header of a panel's image at the front of `out`.
fn put_header(panel: u32, depth: u32, out: &mut [u8]) -> Result<(), Refusal>
    ensures { (number_given result, out.new) ≡ header_put panel depth out.old }
{
    let header = hall_display::make_header(panel, depth)?;
    if out.len() < 16 {
        return Err(Refusal::Output);
    }
    lists::put_at(out, 0, &header);
    Ok(())
}

// The header of a panel's image: 0; or 24, no such panel or depth; or 11, the output too short.
#[unsafe(no_mangle)]
pub extern "C" fn epd_hall_header(panel: u32, depth: u32, out: &mut [u8]) -> u8
    ensures { (result, out.new) ≡ header_put panel depth out.old }
{
    refusal::number_given(put_header(panel, depth, out))
}

// An answer as a word.
fn command_word(answer: Result<Option<u8>, Refusal>) -> u32
    ensures { result ≡ command_word (answer_of answer) }
{
    match answer {
        Err(refusal) => words::make_word(0, u32::from(refusal.number())),
        Ok(Some(n)) => words::make_word(1, u32::from(n)),
        Ok(None) => words::make_word(2, 0),
    }
}

// The command of one number of an image's upload to a slot.
#[unsafe(no_mangle)]
pub extern "C" fn epd_hall_command(
    panel: u32,
    depth: u32,
    image: &[u8],
    slot: u32,
    number: u32,
    out: &mut [u8],
) -> u32
    ensures { (result, out.new)
        ≡ as_word command_word (uploading panel depth image.now slot number out.old) }
{
    command_word(hall_display::upload_command(panel, depth, image, slot, number, out))
}

// Reads a command into a slot at a data pointer, which the caller keeps.
#[unsafe(no_mangle)]
pub extern "C" fn epd_hall_read(slot: u32, at: usize, command: &[u8], memory: &mut [u8]) -> u32
    ensures { (result, memory.new)
        ≡ as_word (read_word «at») (reading (reader_at slot «at») command.now memory.old) }
{
    let mut reader = Reader { slot, at };
    match reader.read(command, memory) {
        Err(refusal) => words::make_word(0, u32::from(refusal.number())),
        Ok(()) => words::make_word(1, (reader.at - at) as u32),
    }
}

// The checksum of some bytes, from a start value on, by the table.
#[unsafe(no_mangle)]
pub extern "C" fn epd_hall_checksum(start: u16, bytes: &[u8]) -> u16
    ensures { result ≡ checksum_from start bytes.now }
{
    hall_checksum::checksum_by_table(start, bytes)
}

// The same, as document 003 prints it.
#[unsafe(no_mangle)]
pub extern "C" fn epd_hall_checksum_printed(start: u16, bytes: &[u8]) -> u16
    ensures { result
        ≡ checksum_from start bytes.now }
{
    hall_checksum::checksum(start, bytes)
}
