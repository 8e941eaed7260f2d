//! What no program shows of a capture.
mod frames;
mod packets;
mod sessions;
mod streams;
