//! The ready DAQ lists of a store, as a reader of recordings needs them.
ghost use Rattle.std.specs.Prelude.{◌≡◌, ◌<◌, ◌++◌, ◌∷◌, [], IfOk, OnOk, filter, length, map};
ghost use Rattle.std.specs.Prelude.{if◌then◌else◌};
ghost use Rattle.xcp_base.specs.declared.limits.TheConstants.{MAX_LISTS};
ghost use Rattle.daq_reader.specs.Lists.{Stands, plans_of};
ghost use Rattle.daq_reader.specs.Ready.{first_reading, plan_in, ready_lists, shows_ready};

use crate::list_shape::ListShape;
use crate::reader::Reader;
use daq_store::Store;
use std::alloc::{AllocError, Global};

/// A reader of the ready DAQ lists of a store, in rising list number.
///
/// These are the lists whose samples a run of the store may write: those that run in it, and those
/// that a step starts. Lack of memory is the only fault.
pub fn reader_of(alloc: Global, store: &Store) -> Result<Reader, AllocError>
    ensures value { IfOk result (λ reader. reader ≡ ready_lists store.now) }
    ensures stands { IfOk result (λ reader. Stands reader [] []) }
{
    let mut reader = Reader::new(alloc);
    for l in 0..store.lists() {
        add_list(alloc, &mut reader, store, l)?;
    }
    Ok(reader)
}

/// Adds a DAQ list, if it is ready.
fn add_list(alloc: Global, reader: &mut Reader, store: &Store, l: u16) -> Result<(), AllocError>
    requires list { l < MAX_LISTS }
    requires there { l < length store.now.lists }
    ensures value { OnOk result (reader.new ≡ reader.old
        ++ map (first_reading store.now) (filter (shows_ready store.now) (l ∷ []))) }
    ensures stands { Stands reader.old [] [] → OnOk result (Stands reader.new [] []) }
{
    if let Some(shape) = shape_of(alloc, store, l)? {
        reader.add(alloc, shape)?;
    }
    Ok(())
}

/// The shapes of the ready DAQ lists of a store, in rising list number. Lack of memory is the only
/// fault.
pub fn shapes_of(alloc: Global, store: &Store) -> Result<Vec<ListShape>, AllocError>
    ensures { IfOk result (λ shapes. shapes.items ≡ plans_of (ready_lists store.now)) }
{
    let mut shapes = Vec::new(alloc);
    for l in 0..store.lists() {
        add_shape(alloc, &mut shapes, store, l)?;
    }
    Ok(shapes)
}

/// Adds the shape of a DAQ list, if it is ready.
fn add_shape(
    alloc: Global,
    shapes: &mut Vec<ListShape>,
    store: &Store,
    l: u16,
) -> Result<(), AllocError>
    requires list { l < MAX_LISTS }
    requires there { l < length store.now.lists }
    ensures { OnOk result (shapes.new.items ≡ shapes.old.items ++ plans_of
        (map (first_reading store.now) (filter (shows_ready store.now) (l ∷ [])))) }
{
    if let Some(shape) = shape_of(alloc, store, l)? {
        shapes.push(shape)?;
    }
    Ok(())
}

/// The shape of a DAQ list, if it is ready.
fn shape_of(alloc: Global, store: &Store, l: u16) -> Result<Option<ListShape>, AllocError>
    requires list { l < MAX_LISTS }
    requires there { l < length store.now.lists }
    ensures { IfOk result (λ shape. shape
        ≡ (if shows_ready store.now l then Some (plan_in store.now l) else None)) }
{
    let Some(conf) = store.plan(l) else {
        return Ok(None);
    };
    let first_pid = store.first_pid(l).unwrap();
    let shape = ListShape::of(alloc, l as u8, conf, first_pid, store.segments())?;
    Ok(Some(shape))
}
