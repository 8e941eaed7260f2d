//! Samples become a picture as they are read, with a row for each DAQ list.
ghost use Rattle.std.specs.Prelude.{◌≡◌, [], IfOk};

use crate::sheet::Sheet;
use daq_reader::{SampleLog, SampleView, Samples};
use daq_store::Store;
use sample_picture::{Axis, Picture};
use sample_tables::Places;
use std::alloc::{AllocError, Global};
use std::io::{self, Write};
use std::marker::Model;
use xcp_base::StampSize;

/// The picture of the samples that it was handed, with a row for each ready DAQ list of a store.
///
/// The axis is time where every list is stamped, else the sample's number in the recording.
#[derive(Drop)]
pub struct Drawing<W: Write + Drop> {
    picture: Picture,
    places: Places,
    log: SampleLog,
    out: W,
}

impl<W: Write + Drop> Model for Drawing<W> {
    ghost use Rattle.recording.specs.Sheets.{PictureState};

    ghost Value = { PictureState };

    ghost view = { λ a. record { start = W.contents a.out; samples = a.log.samples } };
}

impl<W: Write + Drop> Drawing<W> {
    /// A picture of no sample. Lack of memory is the only fault.
    pub fn new(alloc: Global, store: &Store, out: W) -> Result<Drawing<W>, AllocError>
        ensures { IfOk result (λ drawing.
            drawing ≡ record { start = W.contents out; samples = [] }) }
    {
        let mut picture = Picture::new(alloc);
        let mut axis = Axis::Ticks;
        let mut size = StampSize::Four;
        for l in 0..store.lists() {
            if let Some(conf) = store.plan(l) {
                picture.add_row(l as u8, conf.channel())?;
                size = conf.form().stamp;
                if !conf.stamped() {
                    axis = Axis::Samples;
                }
            }
        }
        Ok(Drawing {
            picture,
            places: Places::new(alloc, axis, size, store.lists() as usize)?,
            log: SampleLog::new(),
            out,
        })
    }
}

impl<W: Write + Drop> Samples for Drawing<W> {
    ghost use Rattle.std.specs.Prelude.{ℕ, List, Option};

    ghost handed = { λ a. a.samples };

    ghost Kept = { Option (List ℕ) };

    ghost kept = { λ a. a.start };

    /// The sample stands in the row of its list.
    fn hand(&mut self, place: usize, sample: &SampleView<'_>) {
        let at = self.places.next(place, sample.stamp());
        self.picture.sample(place, at, sample.overload());
        // for the proof: clauses speak of the samples that were handed over
        self.log.note(place, sample);
    }
}

impl<W: Write + Drop> Sheet for Drawing<W> {
    ghost use Rattle.std.proofs.Common.{subst};
    ghost use Rattle.std.specs.Prelude.{ℕ, List};
    ghost use Rattle.std.specs.Io.KnownBytes.{Appends};
    ghost use Rattle.sample_picture.specs.Shown.{IsClosed};

    type Out = W;

    ghost IsPrinted = { λ a samples out.
        (text : List ℕ) × IsClosed text × Appends a.start (W.contents out) text };

    ghost by_kept = { λ a b samples out same.
        subst (λ start.
        (text : List ℕ) × IsClosed text × Appends start (W.contents out) text) same };

    fn print(self) -> io::Result<W> {
        let Drawing {
            picture,
            places,
            out,
            ..
        } = self;
        let mut out = out;
        picture.print(&mut out, places.axis())?;
        out.flush()?;
        Ok(out)
    }
}
