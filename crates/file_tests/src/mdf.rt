//! Measurement files against bytes and places that are worked out from the format.
mod block_tests;
mod file_tests;
mod group_file_tests;
mod group_tests;
mod place_tests;
mod rule_tests;
mod worked_bytes;
mod worked_file;
mod writer_tests;
