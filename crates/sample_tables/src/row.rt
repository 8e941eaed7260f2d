//! A row of the CSV text: one element of a sample.
ghost use Rattle.std.specs.Prelude.{◌≡◌, ◌≤◌, ◌*◌, length, OnOk};
ghost use Rattle.std.specs.Fmt.{decimal};
ghost use Rattle.std.specs.Io.KnownBytes.{Appends};
ghost use Rattle.csv.specs.Writing.{row_text, text_written};
ghost use Rattle.hex.specs.Hex.{encode_lower};
ghost use Rattle.sample_tables.specs.declared.row.TheConstants.{MAX_SIZE};
ghost use Rattle.sample_tables.specs.Rows.{IsBetweenRows, column_names, if_some, one_or_zero};
ghost use Rattle.sample_tables.specs.Rows.{rfc_4180, row_fields, unsigned_of};

use crate::spot::Spot;
use csv::{Error, Writer};
use itoa::Buffer;
use std::io::Write;

/// No element has more bytes.
pub const MAX_SIZE: usize = 255;

/// One element of a sample: the bytes of an entry, and where they come from.
#[derive(Clone, Copy)]
pub struct Row<'a> {
    /// Where the sample stands.
    pub at: Spot,
    /// The ticks of its timestamp.
    pub ticks: Option<u32>,
    /// The DAQ list.
    pub list: u8,
    /// The ODT in the list.
    pub odt: usize,
    /// The entry in the ODT.
    pub entry: usize,
    /// Where the bytes stood in the image of all memory.
    pub address: usize,
    /// The bytes.
    pub bytes: &'a [u8],
    /// Whether the sample has the overload indication.
    pub overload: bool,
}

/// Writes the names of the columns.
pub fn write_names<W: Write + Drop>(rows: &mut Writer<W>) -> Result<(), Error>
    requires { IsBetweenRows rows.old }
    ensures text { OnOk result (Appends (text_written W.contents rows.old)
        (text_written W.contents rows.new) (row_text rfc_4180 column_names)) }
    ensures between { OnOk result (IsBetweenRows rows.new) }
{
    let names: [&[u8]; 11] = [
        b"time",
        b"ticks",
        b"list",
        b"sample",
        b"odt",
        b"entry",
        b"address",
        b"size",
        b"hex",
        b"unsigned",
        b"overload",
    ];
    rows.write_fields(&names)
}

/// Writes a row.
pub fn write_row<W: Write + Drop>(rows: &mut Writer<W>, row: Row<'_>) -> Result<(), Error>
    requires between { IsBetweenRows rows.old }
    requires size { length row.bytes.now ≤ MAX_SIZE }
    ensures text { OnOk result (Appends (text_written W.contents rows.old)
        (text_written W.contents rows.new) (row_text rfc_4180 (row_fields row.entry.at
        row.entry.ticks row.entry.list row.entry.odt row.entry.entry row.entry.address
        row.entry.bytes.now row.entry.overload))) }
    ensures between { OnOk result (IsBetweenRows rows.new) }
{
    let mut time = Buffer::new();
    let mut ticks = Buffer::new();
    let mut list = Buffer::new();
    let mut sample = Buffer::new();
    let mut odt = Buffer::new();
    let mut entry = Buffer::new();
    let mut address = Buffer::new();
    let mut size = Buffer::new();
    let mut digits = [0; 2 * MAX_SIZE];
    let mut unsigned = Buffer::new();
    let fields: [&[u8]; 11] = [
        if_some(&mut time, row.at.time),
        if_some(&mut ticks, widened(row.ticks)),
        decimal(&mut list, row.list as u64),
        decimal(&mut sample, row.at.number),
        decimal(&mut odt, row.odt as u64),
        decimal(&mut entry, row.entry as u64),
        decimal(&mut address, row.address as u64),
        decimal(&mut size, row.bytes.len() as u64),
        hexadecimal(&mut digits, row.bytes),
        if_some(&mut unsigned, unsigned_of(row.bytes)),
        one_or_zero(row.overload),
    ];
    rows.write_fields(&fields)
}

/// A number in decimal digits.
pub fn decimal(buffer: &mut Buffer, number: u64) -> &[u8]
    ensures { result.now ≡ decimal number }
{
    buffer.format(number).as_bytes()
}

/// A number, or nothing if there is none.
fn if_some(buffer: &mut Buffer, number: Option<u64>) -> &[u8]
    ensures { result.now ≡ if_some number }
{
    match number {
        Some(number) => decimal(buffer, number),
        None => b"",
    }
}

/// The same number, if there is one.
fn widened(number: Option<u32>) -> Option<u64>
    ensures { result ≡ number }
{
    Some(number? as u64)
}

/// Bytes in lower-case hexadecimal.
pub fn hexadecimal<'b>(buffer: &'b mut [u8], bytes: &[u8]) -> &'b [u8]
    requires { 2 * length bytes.now ≤ length buffer.old }
    ensures { result.now ≡ encode_lower bytes.now }
{
    let text = &mut buffer[..2 * bytes.len()];
    let Ok(()) = hex::encode_to_slice(bytes, text) else {
        unreachable!();
    };
    text
}

/// 1 or 0.
pub fn one_or_zero(holds: bool) -> &'static [u8]
    ensures { result.now ≡ one_or_zero holds }
{
    if holds { b"1" } else { b"0" }
}

/// The unsigned number of 1, 2, 4 or 8 bytes, the least significant first.
fn unsigned_of(bytes: &[u8]) -> Option<u64>
    ensures { result ≡ unsigned_of bytes.now }
{
    match *bytes {
        [a] => Some(a as u64),
        [a, b] => Some(u16::from_le_bytes([a, b]) as u64),
        [a, b, c, d] => Some(u32::from_le_bytes([a, b, c, d]) as u64),
        [a, b, c, d, e, f, g, h] => Some(u64::from_le_bytes([a, b, c, d, e, f, g, h])),
        _ => None,
    }
}
