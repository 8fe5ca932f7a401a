// Reads a settings file on standard input and lists it on standard output.
#![tactic(auto)]

fn main(rt: HostRuntime) -> std::io::Result<()> {
    // One byte more than the longest file: a longer input fills it, and no file of this length is accepted.
    let mut file = [0u8; 638];
    let n = input::fill(&mut rt.stdin(), &mut file)?;
    let listed = listing::listing_of(&file[..n]);
    rt.write_all(&listed.text[..listed.len])
}
