//! The tests of captures that no program shows, and of measurement files (ASAM MDF 4.1), block by
//! block. As a library this crate is empty.
#![tactic(auto)]

#[cfg(test)]
mod captures;
#[cfg(test)]
mod holds;
#[cfg(test)]
mod mdf;
#[cfg(test)]
mod same;
