//! Rows of CSV, field by field.
ghost use Rattle.std.specs.Prelude.{◌≤◌, length};

use crate::capture_clock::{CaptureClock, SampleTime};
use crate::clocks::Clocks;
use csv::{Terminator, Writer, WriterBuilder};
use itoa::Buffer;
use measured_values::{Raw, push_seconds};
use sample_tables::{MAX_SIZE, hexadecimal};
use std::alloc::{AllocError, Global};
use std::io::{self, ErrorKind, Write};
use value_tables::{Column, write_head, write_value};

/// A writer of rows, with the text of a field, and which times rows have.
#[derive(Drop)]
pub struct RowText<W: Write + Drop> {
    rows: Writer<W>,
    cell: String,
    clocks: Clocks,
}

impl<W: Write + Drop> RowText<W> {
    /// No row yet.
    pub fn new(alloc: Global, clocks: Clocks, out: W) -> RowText<W> {
        RowText {
            rows: WriterBuilder::new()
                .terminator(Terminator::CRLF)
                .from_writer(out),
            cell: String::new(alloc),
            clocks,
        }
    }

    /// One field more.
    pub fn put(&mut self, field: &str) -> Result<(), ErrorKind> {
        self.rows
            .write_field(field.as_bytes())
            .map_err(|_| ErrorKind::Other)
    }

    /// A number.
    pub fn put_number(&mut self, number: u64) -> Result<(), ErrorKind> {
        self.put(Buffer::new().format(number))
    }

    /// The ticks of a timestamp; nothing if there is none.
    pub fn put_ticks(&mut self, ticks: Option<u32>) -> Result<(), ErrorKind> {
        match ticks {
            Some(ticks) => self.put_number(ticks as u64),
            None => self.put(""),
        }
    }

    /// The names of the times.
    pub fn put_time_heads(&mut self) -> Result<(), ErrorKind> {
        self.put("time [s]")?;
        match self.clocks {
            Clocks::Slave => Ok(()),
            Clocks::SlaveAndCapture => self.put("capture [s]"),
        }
    }

    /// The times of a sample that was captured last, of which this is the slave's.
    pub fn put_times(
        &mut self,
        time: Option<SampleTime>,
        clock: &CaptureClock,
    ) -> Result<(), ErrorKind> {
        self.put_time(time)?;
        match self.clocks {
            Clocks::Slave => Ok(()),
            Clocks::SlaveAndCapture => self.put_time(clock.captured()),
        }
    }

    /// A time in seconds; nothing if there is none.
    fn put_time(&mut self, time: Option<SampleTime>) -> Result<(), ErrorKind> {
        self.cell.clear();
        if let Some(time) = time {
            push_time(&mut self.cell, time).map_err(|_| ErrorKind::OutOfMemory)?;
        }
        self.put_cell()
    }

    /// The physical value of a raw one; nothing if there is none.
    pub fn put_value(&mut self, column: &Column<'_>, raw: Option<Raw>) -> Result<(), ErrorKind> {
        write_value(&mut self.cell, column, raw).map_err(|_| ErrorKind::OutOfMemory)?;
        self.put_cell()
    }

    /// The name of a column, with its unit.
    pub fn put_head(&mut self, column: &Column<'_>) -> Result<(), ErrorKind> {
        write_head(&mut self.cell, column.name, column.unit).map_err(|_| ErrorKind::OutOfMemory)?;
        self.put_cell()
    }

    /// Bytes in hexadecimal digits.
    pub fn put_hex(&mut self, bytes: &[u8]) -> Result<(), ErrorKind>
        requires { length bytes.now ≤ 255 }
    {
        let mut digits = [0; 2 * MAX_SIZE];
        self.rows
            .write_field(hexadecimal(&mut digits, bytes))
            .map_err(|_| ErrorKind::Other)
    }

    /// Ends a row.
    pub fn end(&mut self) -> Result<(), ErrorKind> {
        self.rows.end_record().map_err(|_| ErrorKind::Other)
    }

    /// Writes out what is left.
    pub fn finish(self) -> io::Result<()> {
        match self.rows.into_inner() {
            Ok(out) => {
                let mut out = out;
                out.flush()
            }
            Err(_) => Err(io::Error::from(ErrorKind::Other)),
        }
    }

    /// The field that the text is.
    fn put_cell(&mut self) -> Result<(), ErrorKind> {
        self.rows
            .write_field(self.cell.as_bytes())
            .map_err(|_| ErrorKind::Other)
    }
}

/// Appends a time in seconds; nothing if it is 2^64 ticks or more.
fn push_time(text: &mut String, time: SampleTime) -> Result<(), AllocError> {
    let Ok(at) = u64::try_from(time.at.unsigned_abs()) else {
        return Ok(());
    };
    if time.at < 0 {
        text.push_str("-")?;
    }
    push_seconds(text, at, time.tick)
}

/// What failed.
pub fn failure_of(writing: Result<(), ErrorKind>) -> Option<ErrorKind> {
    writing.err()
}
