// The checksum of the hall display's document: as it is printed there, and on a table.
#![tactic(auto)]

ghost use Rattle.std.specs.Prelude.{◌≡◌};
ghost use Rattle.hall_checksum.specs.Checksum.{crc16_add, checksum_from, crc_table, table_add, table_add_two, table_checksum};

mod table;

// The checksum of no bytes.
pub const INITIAL: u16 = 0x6363;

// One byte more in the checksum, as document 003 prints it.
fn crc16_add(byte: u8, before: u16) -> u16
    ensures { result ≡ crc16_add byte before }
{
    let mut acc = before;
    acc ^= u16::from(byte);
    acc = (acc >> 8) | (acc << 8);
    acc ^= (acc & 0xFF00) << 4;
    acc ^= (acc >> 8) >> 4;
    acc ^= (acc & 0xFF00) >> 5;
    acc
}

// The checksum of some bytes, from a start value on, as document 003 prints it.
pub fn checksum(start: u16, bytes: &[u8]) -> u16
    ensures { result ≡ checksum_from start bytes.now }
{
    let mut acc = start;
    for &byte in bytes {
        acc = crc16_add(byte, acc);
    }
    acc
}

// The three functions below are lent the table, so that a whole checksum takes its address once; that it is the rule's is the fact that
// each one asks. The halves are taken by division, as the rule in specs/ has them.

// One byte more, on the table.
fn table_add(table: &[u32; 256], byte: u8, acc: u16) -> u16
    requires { table.now ≡ crc_table }
    ensures { result ≡ table_add byte acc }
{
    let x = (acc ^ u16::from(byte)) % 0x100;
    let entry = table[usize::from(x)];
    (acc / 0x100) ^ (entry % 0x1_0000) as u16
}

// Two bytes more, on the table: neither look-up waits for the other.
fn table_add_two(table: &[u32; 256], first: u8, second: u8, acc: u16) -> u16
    requires { table.now ≡ crc_table }
    ensures { result ≡ table_add_two first second acc }
{
    let x = (acc ^ u16::from(first)) % 0x100;
    let y = (acc / 0x100 ^ u16::from(second)) % 0x100;
    let early = table[usize::from(x)];
    let late = table[usize::from(y)];
    (early / 0x1_0000) as u16 ^ (late % 0x1_0000) as u16
}

// The checksum of some bytes, two at a time on a table that is lent once.
fn table_checksum(table: &[u32; 256], start: u16, bytes: &[u8]) -> u16
    requires { table.now ≡ crc_table }
    ensures { result ≡ table_checksum start bytes.now }
{
    let mut acc = start;
    let (pairs, last) = bytes.as_chunks::<2>();
    for &[first, second] in pairs {
        acc = table_add_two(table, first, second, acc);
    }
    if last.is_empty() {
        return acc;
    }
    table_add(table, last[0], acc)
}

// The same checksum as `checksum`, on the table.
pub fn checksum_by_table(start: u16, bytes: &[u8]) -> u16
    ensures { result
        ≡ checksum_from start bytes.now }
{
    table_checksum(&table::TABLE, start, bytes)
}
