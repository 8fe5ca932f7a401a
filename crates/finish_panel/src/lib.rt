// Updates of the 5.81" and 7.41" panels: each call gives out the one thing that comes after those given so far.
#![tactic(auto)]

ghost use Rattle.std.specs.Prelude.{◌≡◌, ◌≤◌, true, [], length, replicate, IfSome, option_copied};
ghost use Rattle.finish_order.specs.Order.{write, thing_at, things_of};
ghost use Rattle.finish_order.specs.Facts.{thing_of, step_within};
ghost use Rattle.finish_panel.specs.Update.{answer_given, give_out, normal_update, fast_update};
ghost use Rattle.finish_panel.specs.Facts.{second_frame, update_in, Begun};

use finish_order::Step;
use finish_rules::Mode;
use refusal::Refusal;

// What a call gives out: a write, with the length put out; a wait in ms; that the host must see BUSY high before it goes on; or that
// nothing is left.
#[derive(Clone, Copy, Debug, PartialEq, Eq)]
pub enum Given {
    Write(u16),
    Delay(u16),
    BusyHigh,
    Done,
}

// ---- giving it out

// Begins a write of n bytes at the front of `out`: its register, where there is room for the bytes too.
fn begin_write(register: u8, n: usize, out: &mut [u8]) -> Result<Given, Refusal>
    requires { n ≤ 48000 }
    ensures { Begun register n out.old result out.new }
{
    if out.len() <= n {
        return Err(Refusal::Output);
    }
    out[0] = register;
    Ok(Given::Write(1 + n as u16))
}

// A write of `bytes`.
fn give_write(register: u8, bytes: &[u8], out: &mut [u8]) -> Result<Given, Refusal>
    requires { length bytes.now ≤ 48000 }
    ensures { (answer_given result, out.new) ≡ give_out [] (write register bytes.now) out.old }
{
    let n = bytes.len();
    let given = begin_write(register, n, out)?;
    lists::put_at(out, 1, bytes);
    Ok(given)
}

// A write of n zeros.
fn give_zeros(register: u8, n: usize, out: &mut [u8]) -> Result<Given, Refusal>
    requires { n ≤ 48000 }
    ensures { (answer_given result, out.new) ≡ give_out [] (write register (replicate n 0)) out.old }
{
    let given = begin_write(register, n, out)?;
    out[1..=n].fill(0);
    Ok(given)
}

// Gives out what a step stands for. In normal mode no shown picture is lent, and zeros go to the second frame.
fn give_step(
    step: Step,
    otp: &[u8; 128],
    index: u8,
    new: &[u8],
    shown: Option<&[u8]>,
    out: &mut [u8],
) -> Result<Given, Refusal>
    requires sizes { length new.now ≤ 48000 }
    requires within { step_within step ≡ true }
    requires lent { IfSome shown (λ s. length s.now ≤ 48000) }
    ensures { (answer_given result, out.new)
        ≡ give_out []
        (thing_of otp.now index new.now (second_frame (option_copied shown.entry) (length new.now)) step)
        out.old }
{
    match step {
        Step::Byte(register, byte) => give_write(register, &[byte], out),
        Step::Pair(register, first, second) => give_write(register, &[first, second], out),
        Step::Otp(register, at, n) => {
            let at = usize::from(at);
            give_write(register, &otp[at..at + usize::from(n)], out)
        }
        Step::Dctl(register) => give_write(register, &[otp[0x10], 0x00], out),
        Step::Index(register) => give_write(register, &[index], out),
        Step::New(register) => give_write(register, new, out),
        Step::Second(register) => match shown {
            Some(shown) => give_write(register, shown, out),
            None => give_zeros(register, new.len(), out),
        },
        Step::Delay(ms) => Ok(Given::Delay(ms)),
        Step::BusyHigh => Ok(Given::BusyHigh),
        Step::Done => Ok(Given::Done),
    }
}

// The thing after `given` others, where nothing is refused but for want of room. It is compiled by itself, and `give_next` into its callers,
// so that a refusal takes little time and stack.
#[inline(never)]
fn give_thing(
    otp: &[u8; 128],
    index: u8,
    new: &[u8],
    shown: Option<&[u8]>,
    given: u32,
    out: &mut [u8],
) -> Result<Given, Refusal>
    requires sizes { length new.now ≤ 48000 }
    requires lent { IfSome shown (λ s. length s.now ≤ 48000) }
    ensures { (answer_given result, out.new)
        ≡ give_out []
        (thing_at
        (things_of otp.now index new.now (second_frame (option_copied shown.entry) (length new.now)))
        given)
        out.old }
{
    let step = finish_order::step_at(otp, given as usize);
    give_step(step, otp, index, new, shown, out)
}

// ---- the calls

// The thing after `given` others, in a mode: fast mode is lent the shown picture, normal mode none. The two public calls over it stand for
// the two modes, as `normal_update` and `fast_update` of specs/, of the theorems and of the C interface do.
#[inline(always)]
fn give_next(
    mode: Mode,
    otp: &[u8],
    temperature: i32,
    new: &[u8],
    shown: Option<&[u8]>,
    given: u32,
    out: &mut [u8],
) -> Result<Given, Refusal>
    ensures { (answer_given result, out.new)
        ≡ update_in mode otp.now temperature new.now (option_copied shown.entry) given out.old }
{
    let Ok(otp) = <&[u8; 128]>::try_from(otp) else {
        return Err(Refusal::OtpLength);
    };
    let as_long = shown.unwrap_or(new);
    let index = finish_rules::check(otp, mode, temperature, new.len(), as_long.len())?;
    give_thing(otp, index, new, shown, given, out)
}

// Normal mode: the thing that comes after `given` others. A write goes to the front of `out`.
pub fn normal_update(
    otp: &[u8],
    temperature: i32,
    new: &[u8],
    given: u32,
    out: &mut [u8],
) -> Result<Given, Refusal>
    ensures { (answer_given result, out.new)
        ≡ normal_update otp.now temperature new.now given out.old }
{
    give_next(Mode::Normal, otp, temperature, new, None, given, out)
}

// Fast mode, from the shown picture to the new one.
pub fn fast_update(
    otp: &[u8],
    temperature: i32,
    new: &[u8],
    shown: &[u8],
    given: u32,
    out: &mut [u8],
) -> Result<Given, Refusal>
    ensures { (answer_given result, out.new)
        ≡ fast_update otp.now temperature new.now shown.now given out.old }
{
    give_next(Mode::Fast, otp, temperature, new, Some(shown), given, out)
}
