// The hall display's upload commands, read back into a slot.
#![tactic(auto)]

ghost use Rattle.std.specs.Prelude.{◌≡◌};
ghost use Rattle.hall_commands.specs.Reading.{reader_at, reply_of, is_upload, reading};

use refusal::Refusal;

// A reader of one slot, with its data pointer. The slot is any number: reading refuses one above 255.
#[derive(Clone, Copy, Debug, PartialEq, Eq)]
pub struct Reader {
    pub slot: u32,
    pub at: usize,
}

// Whether a command uploads data to a slot. Its bytes are read by index: with a slice pattern the proof has no facts on them.
#[tactic(auto, unfolding(crate::specs::Reading::is_upload))]
fn is_upload(slot: u32, command: &[u8]) -> bool
    ensures { result ≡ is_upload slot command.now }
{
    command.len() >= 4
        && command[0] == 0x20
        && command[1] == 0x01
        && u32::from(command[2]) == slot
        && (1..=251).contains(&command[3])
        && command.len() == 4 + usize::from(command[3])
}

impl Reader {
    // A reader of a slot, with its pointer at the slot's front.
    pub fn new(slot: u32) -> Self
        ensures { result ≡ reader_at slot 0 }
    {
        Self { slot, at: 0 }
    }

    // The pointer back to the slot's front.
    pub fn reset(self) -> Self
        ensures { result ≡ reader_at self.slot 0 }
    {
        Self { at: 0, ..self }
    }

    // Reads the data of a command into the lent slot, at the pointer, which moves past it. A refusal leaves both.
    pub fn read(&mut self, command: &[u8], memory: &mut [u8]) -> Result<(), Refusal>
        ensures { (reply_of self.new result, memory.new)
            ≡ reading self.old command.now memory.old }
    {
        if self.slot > 255 {
            return Err(Refusal::DisplaySlot);
        }
        if !is_upload(self.slot, command) {
            return Err(Refusal::Command);
        }
        let data = &command[4..];
        if memory.len() < self.at || memory.len() - self.at < data.len() {
            return Err(Refusal::Data);
        }
        lists::put_at(memory, self.at, data);
        self.at += data.len();
        Ok(())
    }
}
