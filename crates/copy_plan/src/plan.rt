//! A copy plan is made, once, of what is set of a ready DAQ list.
ghost use Rattle.std.specs.Prelude.{◌≡◌, ◌<◌, ◌≤◌, All, IfOk, true, length, map};
ghost use Rattle.xcp_base.specs.Forms.{FitsFirstPid, stamp_bytes};
ghost use Rattle.daq_store.specs.Configuration.{is_ready};
ghost use Rattle.copy_plan.specs.declared.plan.PlanFault.TheVariants.{Memory};
ghost use Rattle.copy_plan.specs.Config.{IsPlan, plan_of, written_entries};
ghost use Rattle.copy_plan.specs.Inner.Filled.{AreFilled};
ghost use Rattle.copy_plan.specs.Inner.Joined.{joined_spans};
ghost use Rattle.copy_plan.specs.Inner.Lens.{lens_upto};
ghost use Rattle.copy_plan.specs.Inner.Stretched.{ArePlaced, SpansState};
ghost use Rattle.segments.specs.Image.{HaveImage, image_len, image_segments};

use crate::spans::Spans;
use arrayvec::ArrayVec;
use daq_store::ListConf;
use segments::limits::MAX_SEGMENTS;
use segments::{Segment, Segments, image_len, image_segment};
use std::alloc::{AllocError, Global};
use std::error::Error;
use std::fmt;
use std::marker::Model;
use std::snapshot::Snapshot;
use thiserror::Error;
use xcp_base::limits::{MAX_CHANNELS, MAX_LISTS, MAX_ODTS_IN_ALL};
use xcp_base::{IdKind, PacketForm};

/// LEN and CTR, in bytes.
pub(crate) const HEADER: usize = 4;

/// Why no plan was made.
#[derive(Clone, Copy, Debug, PartialEq, Eq, Error)]
pub enum PlanFault {
    /// Memory ran out.
    #[error("out of memory")]
    Memory,
}

impl From<AllocError> for PlanFault {
    ghost from_gives = { λ _ fault. fault ≡ Memory };

    fn from(_error: AllocError) -> PlanFault {
        PlanFault::Memory
    }
}

/// What the samples of one ready DAQ list are made of: its ODTs, each as the parts of memory that
/// its packet copies.
///
/// Contracts see the list's configuration, entry by entry. Neighbouring entries are joined once,
/// when the plan is made; entries and segments themselves are not kept, `conf` and `segments` have
/// no bytes.
#[derive(Drop)]
pub struct CopyPlan {
    pub(crate) list: u8,
    pub(crate) channel: u8,
    pub(crate) prescaler: u8,
    pub(crate) first_pid: u8,
    pub(crate) form: PacketForm,
    pub(crate) stamped: bool,
    pub(crate) image_len: usize,
    pub(crate) odts: Vec<Spans>,
    // The bytes of the frames of a sample.
    pub(crate) frames_len: usize,
    pub(crate) conf: Snapshot<ListConf>,
    pub(crate) segments: Snapshot<ArrayVec<Segment, MAX_SEGMENTS>>,
}

impl Model for CopyPlan {
    ghost use Rattle.copy_plan.specs.Config.{ListPlan};
    ghost use Rattle.copy_plan.specs.Inner.Kept.{IsKept, plan_view};

    ghost Value = { ListPlan };

    ghost view = { plan_view };

    ghost invariant = { IsKept };
}

impl CopyPlan {
    /// The plan of a ready DAQ list, whose PIDs begin with FIRST_PID, which is 0 with a relative
    /// ODT number; images have `image_len` bytes.
    ///
    /// An entry that begins where the one before it in the same ODT ends is copied with it, in one
    /// go.
    pub fn of(
        alloc: Global,
        list: u8,
        conf: &ListConf,
        first_pid: u8,
        image_len: usize,
    ) -> Result<CopyPlan, PlanFault>
        requires list { list < MAX_LISTS }
        requires ready { is_ready (image_segments image_len) conf.now ≡ true }
        requires pids { FitsFirstPid conf.now.form.id (length conf.now.odts) first_pid }
        ensures value { IfOk result
            (λ plan. plan ≡ plan_of list conf.now first_pid (image_segments image_len)) }
        ensures plan { IfOk result IsPlan }
    {
        let mut segments = ArrayVec::new();
        segments.push(image_segment(image_len));
        CopyPlan::in_these(alloc, list, conf, first_pid, &segments)
    }

    /// The same for memory in these segments.
    pub fn over(
        alloc: Global,
        list: u8,
        conf: &ListConf,
        first_pid: u8,
        segments: &Segments,
    ) -> Result<CopyPlan, PlanFault>
        requires list { list < MAX_LISTS }
        requires ready { is_ready segments.now conf.now ≡ true }
        requires pids { FitsFirstPid conf.now.form.id (length conf.now.odts) first_pid }
        ensures value { IfOk result (λ plan. plan ≡ plan_of list conf.now first_pid segments.now) }
        ensures plan { IfOk result IsPlan }
    {
        CopyPlan::in_these(alloc, list, conf, first_pid, segments.items())
    }

    /// The same for these segments.
    fn in_these(
        alloc: Global,
        list: u8,
        conf: &ListConf,
        first_pid: u8,
        segments: &ArrayVec<Segment, MAX_SEGMENTS>,
    ) -> Result<CopyPlan, PlanFault>
        requires list { list < MAX_LISTS }
        requires image { HaveImage segments.now.items }
        requires ready { is_ready segments.now.items conf.now ≡ true }
        requires pids { FitsFirstPid conf.now.form.id (length conf.now.odts) first_pid }
        ensures value { IfOk result
            (λ plan. plan ≡ plan_of list conf.now first_pid segments.now.items) }
        ensures plan { IfOk result IsPlan }
    {
        let channel = conf.channel();
        let odts = spans_of_odts(alloc, conf, channel, segments.as_slice())?;
        Ok(CopyPlan {
            list,
            channel,
            prescaler: conf.prescaler(),
            first_pid,
            form: conf.form(),
            stamped: conf.stamped(),
            image_len: image_len(segments.as_slice()),
            odts,
            frames_len: frames_len_of(conf),
            conf: Snapshot::of(conf),
            segments: Snapshot::of(segments),
        })
    }

    /// The number of the DAQ list.
    pub fn list(&self) -> u8
        ensures value { result ≡ self.now.list }
        ensures plan { IsPlan self.now }
    {
        self.list
    }

    /// The event channel of the list.
    pub fn channel(&self) -> u8
        ensures value { result ≡ self.now.channel }
        ensures plan { IsPlan self.now }
    {
        self.channel
    }

    /// The prescaler: the list is due at each `prescaler`-th trigger.
    pub fn prescaler(&self) -> u8
        ensures value { result ≡ self.now.prescaler }
        ensures plan { IsPlan self.now }
    {
        self.prescaler
    }

    /// FIRST_PID: the PID of the list's ODT 0.
    pub fn first_pid(&self) -> u8
        ensures value { result ≡ self.now.first_pid }
        ensures plan { IsPlan self.now }
    {
        self.first_pid
    }

    /// The identification field of the packets.
    pub fn id(&self) -> IdKind
        ensures { result ≡ self.now.form.id }
    {
        self.form.id
    }

    /// The bytes of the timestamp: 1, 2 or 4.
    pub fn stamp_size(&self) -> u8
        ensures { result ≡ stamp_bytes self.now.form.stamp }
    {
        self.form.stamp.bytes()
    }

    /// The number of ODTs, and so of the packets of a sample.
    pub fn odts(&self) -> usize
        ensures value { result ≡ length self.now.odts }
        ensures plan { IsPlan self.now }
    {
        self.odts.len()
    }

    /// The length of an image of its memory, in bytes.
    pub fn image_len(&self) -> usize
        ensures value { result ≡ image_len self.now.segments }
        ensures plan { IsPlan self.now }
    {
        self.image_len
    }
}

/// The bytes of the frames of a list's sample.
pub(crate) fn frames_len_of(conf: &ListConf) -> usize
    ensures { result ≡ lens_upto conf.now (length conf.now.odts) }
{
    let mut len = 0;
    for odt in 0..conf.odts() {
        len += HEADER + conf.packet_len(odt);
    }
    len
}

/// The spans of each ODT of a list, whose event channel may read its entries.
fn spans_of_odts(
    alloc: Global,
    conf: &ListConf,
    channel: u8,
    segments: &[Segment],
) -> Result<Vec<Spans>, AllocError>
    requires image { HaveImage segments.now }
    requires channel { channel < MAX_CHANNELS }
    requires filled { AreFilled channel segments.now conf.now }
    ensures value { IfOk result (λ odts. map (λ (s : SpansState). s.spans) odts.items
        ≡ map (λ es. joined_spans (written_entries channel segments.now es)) conf.now.odts) }
    ensures placed { IfOk result (λ odts. All (ArePlaced channel segments.now) odts.items) }
    ensures limit { length conf.now.odts ≤ MAX_ODTS_IN_ALL }
{
    let mut odts = Vec::with_capacity(alloc, conf.odts())?;
    for odt in 0..conf.odts() {
        odts.push(Spans::of(alloc, conf, odt, channel, segments)?)?;
    }
    Ok(odts)
}
