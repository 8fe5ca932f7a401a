// A settings file as text.
#![tactic(auto)]

ghost use Rattle.std.specs.Prelude.{◌≡◌, ◌+◌, ◌*◌, ◌%◌, ◌<◌, ◌≤◌, ◌++◌, length, drop};
ghost use Rattle.arrayvec.specs.ArrayVec.{array_vec_len};
ghost use Rattle.panel.specs.Names.{panel_code};
ghost use Rattle.settings.specs.Settings.{write, step_of, size_of, steps_of};
ghost use Rattle.listing.specs.Text.{digit, decimal, spaced_bytes, newline};
ghost use Rattle.listing.specs.Listing.{
  panel_line,
  step_line,
  step_lines,
  section_lines,
  file_lines,
  listing,
  listed,
};
ghost use Rattle.settings.specs.Plans.{SectionIn};

use arrayvec::ArrayVec;
use panel::Panel;
use refusal::Refusal;
use settings::{AcceptedFile, Kind, Section};

// The text so far, with room for the longest listing. Each function here puts its own text after it, and asks for the room in its contract:
// memory is fixed (no heap).
type Page = ArrayVec<u8, 2145>;

fn put_text(page: &mut Page, text: &[u8])
    requires { array_vec_len page.old + length text.now ≤ 2145 }
    ensures { page.new.items ≡ page.old.items ++ text.now }
{
    page.try_extend_from_slice(text).unwrap();
}

// A digit below 16. Digits are put by hand, no write! with a format: it may fail on a page of fixed room, and this text may not.
fn digit_of(d: u8) -> u8
    requires { d < 16 }
    ensures { result ≡ digit d }
{
    match d {
        0..=9 => b'0' + d,
        _ => b'A' + (d - 10),
    }
}

// The last decimal digit of a number.
fn last_digit(n: u16) -> u8
    ensures { result ≡ digit (n % 10) }
{
    digit_of((n % 10) as u8)
}

// A number in decimal.
fn put_decimal(page: &mut Page, n: u16)
    requires { (n < 10000) × (array_vec_len page.old + 4 ≤ 2145) }
    ensures { page.new.items ≡ page.old.items ++ decimal n }
{
    let digits = [
        last_digit(n / 1000),
        last_digit(n / 100),
        last_digit(n / 10),
        last_digit(n),
    ];
    let first = match n {
        0..=9 => 3,
        10..=99 => 2,
        100..=999 => 1,
        _ => 0,
    };
    put_text(page, &digits[first..]);
}

// Bytes in hexadecimal, each after a space.
fn put_spaced_bytes(page: &mut Page, bytes: &[u8])
    requires { array_vec_len page.old + 3 * length bytes.now ≤ 2145 }
    ensures { page.new.items ≡ page.old.items ++ spaced_bytes bytes.now }
{
    for byte in bytes {
        put_text(page, &[b' ', digit_of(byte / 16), digit_of(byte % 16)]);
    }
}

// A write's line.
fn put_write_line(page: &mut Page, register: u8, bytes: &[u8])
    requires { (array_vec_len page.old + 33 ≤ 2145) × (length bytes.now ≤ 8) }
    ensures { page.new.items ≡ page.old.items ++ step_line (write register bytes.now) }
{
    put_text(page, b"write");
    put_spaced_bytes(page, &[register]);
    put_spaced_bytes(page, bytes);
    put_text(page, b"\n");
}

// A line of a word and a number.
fn put_number_line(page: &mut Page, word: &[u8], n: u16)
    requires { (n < 10000) × (array_vec_len page.old + length word.now + 5 ≤ 2145) }
    ensures { page.new.items ≡ page.old.items ++ (word.now ++ decimal n ++ newline) }
{
    put_text(page, word);
    put_decimal(page, n);
    put_text(page, b"\n");
}

// The line of the step at index `at` of a file, if there is one. Answers the index after the step.
fn put_step(page: &mut Page, accepted: AcceptedFile, at: usize) -> usize
    requires { (at ≤ length accepted.file.now) × (array_vec_len page.old + 33 ≤ 2145) }
    ensures line { page.new.items ≡ page.old.items ++ step_line (step_of (panel_code accepted.entry.plan.panel) (drop at accepted.entry.file.now)) }
    ensures after { result ≡ at + size_of (step_of (panel_code accepted.entry.plan.panel) (drop at accepted.entry.file.now)) }
{
    let Some(kind) = accepted.step_at(at) else {
        return at;
    };
    let after = at + kind.size();
    match kind {
        Kind::Write(register) => put_write_line(page, register, accepted.data_of(at, register)),
        Kind::Wait(ms) => put_number_line(page, b"wait ", ms),
    }
    after
}

// The lines of n steps, from index `at` of a file on.
fn put_steps(page: &mut Page, accepted: AcceptedFile, at: usize, n: usize)
    requires { (at ≤ length accepted.file.now) × (array_vec_len page.old + 33 * n ≤ 2145) }
    ensures { page.new.items ≡ page.old.items ++ step_lines (steps_of (panel_code accepted.entry.plan.panel) n (drop at accepted.entry.file.now)) }
{
    let mut next = at;
    for _ in 0..n {
        next = put_step(page, accepted, next);
    }
}

// The panel's line.
fn put_panel_line(page: &mut Page, panel: Panel)
    requires { array_vec_len page.old + 11 ≤ 2145 }
    ensures { page.new.items ≡ page.old.items ++ panel_line (panel_code panel) }
{
    match panel {
        Panel::Inch144 => put_text(page, b"panel 1.44\n"),
        Panel::Inch200 => put_text(page, b"panel 2\n"),
        Panel::Inch270 => put_text(page, b"panel 2.7\n"),
    }
}

// The lines of a section: a word and the count of its steps, then the steps.
fn put_section(page: &mut Page, word: &[u8], accepted: AcceptedFile, section: Section)
    requires { SectionIn (panel_code accepted.plan.panel) accepted.file.now section × (length word.now ≤ 6) × (array_vec_len page.old + 1067 ≤ 2145) }
    ensures { page.new.items
        ≡ page.old.items
        ++ section_lines word.now section.count (steps_of (panel_code accepted.entry.plan.panel) section.count (drop section.at accepted.entry.file.now)) }
{
    put_number_line(page, word, section.count as u16);
    put_steps(page, accepted, section.at, section.count);
}

// The lines of an accepted file.
fn put_file(page: &mut Page, accepted: AcceptedFile)
    requires { array_vec_len page.old ≡ 0 }
    ensures { page.new.items ≡ page.old.items ++ file_lines accepted.entry.file.now }
{
    put_panel_line(page, accepted.plan.panel);
    put_section(page, b"start ", accepted, accepted.plan.start);
    put_section(page, b"stop ", accepted, accepted.plan.stop);
}

fn put_listing(page: &mut Page, file: &[u8])
    requires { array_vec_len page.old ≡ 0 }
    ensures { page.new.items ≡ page.old.items ++ listing file.now }
{
    match settings::plan_of(file) {
        Some(plan) => put_file(page, AcceptedFile { file, plan }),
        None => put_number_line(page, b"refused ", u16::from(Refusal::Settings.number())),
    }
}

// A listing: the first `len` bytes of `text`. Not the page itself: `listed`, of which docs and theorems speak, gives these two.
#[derive(Clone, Copy)]
pub struct Listing {
    pub text: [u8; 2145],
    pub len: usize,
}

// The listing of any file.
pub fn listing_of(file: &[u8]) -> Listing
    ensures { result ≡ listed file.now }
{
    let mut page = Page::new();
    put_listing(&mut page, file);
    let mut listing = Listing {
        text: [0; 2145],
        len: page.len(),
    };
    lists::put_at(&mut listing.text, 0, &page);
    listing
}
