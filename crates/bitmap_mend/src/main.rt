// Mends a bitmap file: the first argument is the panel's code, the file stands on standard input. The mended file goes to standard
// output. On standard error each changed byte has a line, its offset, the old byte and the new; where bytes were added, a line has their
// offset and count. A refusal gives one line with its number there, and nothing on standard output.
#![tactic(auto)]

ghost use Rattle.std.specs.Prelude.{◌≡◌, ◌*◌, ◌≤◌, length};
ghost use Rattle.mend.specs.Answers.{count_of};

use mend::{Added, Mended};
use refusal::Refusal;
use std::env::Env;
use std::io;

// The code of the panel that an argument names by one digit; any other argument names none. It is a number, as `mend` takes it.
fn panel_from(text: &[u8]) -> Option<u32> {
    match text {
        [b'0'] => Some(0),
        [b'1'] => Some(1),
        [b'2'] => Some(2),
        _ => None,
    }
}

// The lines of the changed bytes, of which the list has four bytes each.
fn print_changes(rt: &impl Eprint, list: &[u8]) -> io::Result<()> {
    let (changes, _) = list.as_chunks::<4>();
    for &[high, low, old, new] in changes {
        let offset = u16::from_be_bytes([high, low]);
        eprintln!(rt; "{offset} {old:02X} {new:02X}")?;
    }
    Ok(())
}

// How many bytes were added.
fn count_of(added: Option<Added>) -> usize
    ensures { result ≡ count_of added }
{
    added.map_or(0, |added| added.count)
}

// Mends a file into room for the longest file and list, and puts out what there is to say of it. The rooms are fixed, and lengths stand
// beside them, as there is no heap.
fn mend_into(
    rt: &(impl Print + Eprint),
    panel: u32,
    file: &[u8],
    out: &mut [u8],
    list: &mut [u8],
) -> io::Result<()>
    requires { (length out.old ≡ 6398) × (length list.old ≡ 2176) }
{
    let Mended { changes, added } = match mend::mend(panel, file, out, list) {
        Ok(mended) => mended,
        Err(refusal) => return eprintln!(rt; "{refusal}"),
    };
    rt.write_all(&out[..file.len() + count_of(added)])?;
    print_changes(rt, &list[..4 * changes])?;
    if let Some(Added { offset, count }) = added {
        eprintln!(rt; "added {offset} {count}")?;
    }
    Ok(())
}

fn main(rt: HostRuntime) -> io::Result<()> {
    // An argument that is missing, or longer than a digit, is as an empty one.
    let mut code = [0u8; 1];
    let digits = rt.arg(1, &mut code).unwrap_or(0);
    // One byte more than the longest file: a longer input fills it, and no file of this length can be mended.
    let mut file = [0u8; 6399];
    let n = input::fill(&mut rt.stdin(), &mut file)?;
    let mut out = [0u8; 6398];
    // The longest list: four bytes for each of 16 bytes of the header and of three bytes of padding in 176 rows.
    let mut list = [0u8; 2176];
    let Some(panel) = panel_from(&code[..digits]) else {
        return eprintln!(rt; "{}", Refusal::Argument);
    };
    mend_into(&rt, panel, &file[..n], &mut out, &mut list)
}
