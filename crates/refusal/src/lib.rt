// Why a call is refused. docs/REQUIREMENTS.md says when each refusal is given; `number` is how C and the state's replies tell it.
#![tactic(auto)]

ghost use Rattle.std.specs.Prelude.{◌≡◌};
ghost use Rattle.refusal.specs.Numbers.{number_of, number_given};

use std::fmt;

#[derive(Clone, Copy, Debug, PartialEq, Eq)]
pub enum Refusal {
    // the store's memory has another length than it must, or there are not 1 to 7 slots
    Memory = 1,
    // a file or a payload breaks a rule
    Settings = 2,
    Slot = 3,
    Bitmap = 4,
    Region = 5,
    Payload = 6,
    // what is under way forbids it: the run's slot, a run, none, and the clock
    RunsSlot = 7,
    Running = 8,
    NoRun = 9,
    Clock = 10,
    // too little room for what would be put out
    Output = 11,
    // the shown picture is unknown after an abandon
    Unknown = 12,
    State = 13,
    // the line builder's panel, stage, row or picture row, or a panel
    Argument = 14,
    // a slot that is being filled, a fill under way, and none
    FillsSlot = 15,
    Filling = 16,
    NoFill = 17,
    // the finish panels: the OTP memory's length and bytes, the temperature, the pictures
    OtpLength = 18,
    OtpByte = 19,
    Temperature = 20,
    Pictures = 21,
    // the hall display: panel and depth, the image, the slot, the command, its data
    Display = 24,
    Image = 25,
    DisplaySlot = 26,
    Command = 27,
    Data = 28,
    // layouts: the list, its levels, a box of no dots
    List = 29,
    Levels = 30,
    Empty = 31,
}

impl Refusal {
    pub fn number(self) -> u8
        ensures { result ≡ number_of self }
    {
        self as u8
    }
}

// 0, or the number of the refusal.
pub fn number_given(outcome: Result<(), Refusal>) -> u8
    ensures { result ≡ number_given outcome }
{
    match outcome {
        Ok(()) => 0,
        Err(refusal) => refusal.number(),
    }
}

impl fmt::Display for Refusal {
    fn fmt<W: fmt::Write>(&self, f: &mut fmt::Formatter<W>) -> fmt::Result {
        write!(f, "refused {}", self.number())
    }
}
