//! Laws of the definitions: each is the contract of a function that does nothing.
ghost use Rattle.daq_reader.specs.Given.{SamplesAreGivenBack, SamplesAreTaken};
ghost use Rattle.daq_reader.specs.Laws.{ReadingIsUnique, SampleIsUnique, WrittenIsRead};

/// The packets that a copy plan fills of an image and a timestamp are those of one sample: its
/// elements are the image's, and its ticks the lowest bytes of the timestamp.
pub fn what_is_written_is_read()
    ensures { WrittenIsRead }
{}

/// Packets are those of at most one sample of a list.
pub fn a_sample_is_unique()
    ensures { SampleIsUnique }
{}

/// Packets of one list are those of at most one list of samples, whole and in order, with fewer
/// packets behind them than a sample has.
pub fn a_reading_is_unique()
    ensures { ReadingIsUnique }
{}

/// If the packets of a list are those of samples, each whole and in order, a reader that took
/// them has given back exactly these samples, once and in order, and nothing waits.
pub fn samples_are_given_back()
    ensures { SamplesAreGivenBack }
{}

/// If the packets of a list are those of samples, a reader refuses none of them, whatever the
/// packets of other lists are.
pub fn samples_are_taken()
    ensures { SamplesAreTaken }
{}
