// The lines of a script: words with one space between two of them.
use picture::Region;
use run::Tick;
use session::Command;
use std::str::Split;

// What a poll is lent where its line does not say.
const POLLED: usize = 117;

// The words of a line that are left.
type Words<'a> = Split<'a, char>;

// A number in decimal digits, of 32 bits at most. `parse` alone would take a `+` before them.
fn number_of(word: &str) -> Option<u32> {
    if word.starts_with('+') {
        return None;
    }
    word.parse().ok()
}

// A length of at most `limit`.
fn length_of(word: &str, limit: usize) -> Option<usize> {
    let len = number_of(word)? as usize;
    (len <= limit).then_some(len)
}

fn number(words: &mut Words) -> Option<u32> {
    number_of(words.next()?)
}

fn tick(words: &mut Words) -> Option<Tick> {
    Some(Tick(number(words)?))
}

// A length that may be absent.
fn length_if_any(words: &mut Words, limit: usize) -> Option<Option<usize>> {
    match words.next() {
        Some(word) => Some(Some(length_of(word, limit)?)),
        None => Some(None),
    }
}

// The bytes of a word: pairs of hexadecimal digits, or `-` for none. They are put at the front of `room`.
fn bytes<'a>(words: &mut Words, room: &'a mut [u8]) -> Option<&'a [u8]> {
    let word = words.next()?;
    if word == "-" {
        return Some(&room[..0]);
    }
    let size = word.len() / 2;
    if size == 0 || room.len() < size {
        return None;
    }
    hex::decode_to_slice(word, &mut room[..size]).ok()?;
    Some(&room[..size])
}

fn region(words: &mut Words) -> Option<Region> {
    Some(Region {
        x: number(words)?,
        y: number(words)?,
        width: number(words)?,
        height: number(words)?,
    })
}

// The command of a line's first word, with what the words after it bring.
fn command<'a>(words: &mut Words, room: &'a mut [u8]) -> Option<Command<'a>> {
    Some(match words.next()? {
        "open" => Command::Open {
            n: number(words)?,
            file: bytes(words, room)?,
            lent: length_if_any(words, session::MEMORY)?,
        },
        "lend" => Command::Lend(length_of(words.next()?, session::MEMORY)?),
        "region" => Command::Region {
            slot: number(words)?,
            region: region(words)?,
            payload: bytes(words, room)?,
        },
        "bitmap" => Command::Bitmap {
            slot: number(words)?,
            file: bytes(words, room)?,
        },
        "begin" => Command::Begin(number(words)?),
        "chunk" => Command::Chunk(bytes(words, room)?),
        "finish" => Command::Finish,
        "cancel" => Command::Cancel,
        "start" => Command::Start {
            slot: number(words)?,
            tick: tick(words)?,
        },
        "poll" => Command::Poll {
            tick: tick(words)?,
            len: length_if_any(words, session::OUTPUT)?.unwrap_or(POLLED),
        },
        "abandon" => Command::Abandon,
        "write" => Command::Write {
            slot: number(words)?,
            len: length_if_any(words, session::OUTPUT)?.unwrap_or(session::OUTPUT),
        },
        "summary" => Command::Summary(number(words)?),
        _ => return None,
    })
}

// What a line asks for; none where it is no line of a script. The bytes that it brings stand in `room`.
pub fn command_of<'a>(line: &[u8], room: &'a mut [u8]) -> Option<Command<'a>> {
    let text = str::from_utf8(line).ok()?;
    let mut words = text.split(' ');
    let read = command(&mut words, room)?;
    words.next().is_none().then_some(read)
}
