//! The parts of an A2L file: the blocks that its reader hands on, such as MEASUREMENT.
/// The kind of a part.
///
/// An A2L file is a tree of blocks, each from `/begin NAME` to `/end NAME`. A part is a block that
/// says what can be measured, how its values are shown, or how DAQ packets look. `Blocks` hands on
/// each part when its `/end` is read, with the words that stand directly in it. A block that is no
/// part is passed over, unless parts stand in it (PROJECT, IF_DATA) or it has options of the part
/// around it, as BIT_OPERATION of a MEASUREMENT. For example,
///
/// ```text
/// /begin PROJECT engine ""
///   /begin MODULE engine ""
///     /begin GROUP all "" ROOT /end GROUP
///     /begin MEASUREMENT speed "" UWORD rpm 0 0 0 9000
///       ECU_ADDRESS 0x10
///       /begin ANNOTATION ANNOTATION_LABEL "of the crankshaft" /end ANNOTATION
///     /end MEASUREMENT
///   /end MODULE
/// /end PROJECT
/// ```
///
/// has two parts. The first is a `Measurement`: its words begin with `speed`, `""` and `UWORD`, and
/// end with `ECU_ADDRESS` and `0x10`. The second is the `Module`, which is handed on without words.
/// GROUP and ANNOTATION are passed over.
#[derive(Clone, Copy, Debug, PartialEq, Eq)]
pub enum Part {
    /// MOD_COMMON: what holds throughout a MODULE, such as the byte order.
    Defaults,
    /// MEASUREMENT: a value that can be measured.
    Measurement,
    /// INSTANCE: a value of a type that stands elsewhere.
    Instance,
    /// COMPU_METHOD: how raw values are converted.
    Method,
    /// COMPU_VTAB: a table of texts, each for one raw value.
    Table,
    /// COMPU_VTAB_RANGE: a table of texts, each for a range of raw values.
    Ranges,
    /// PROTOCOL_LAYER, anywhere in an IF_DATA of XCP or XCPplus.
    Protocol,
    /// DAQ, anywhere in an IF_DATA of XCP: how packets look.
    Daq,
    /// DAQ, anywhere in an IF_DATA of XCPplus.
    PlusDaq,
    /// TIMESTAMP_SUPPORTED, anywhere in an IF_DATA of XCP but in DAQ: the unit of timestamps.
    Timestamp,
    /// MODULE, behind all parts that stand in it.
    Module,
}
