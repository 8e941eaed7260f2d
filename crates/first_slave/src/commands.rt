//! What the master sends over its stream: command packets, each behind LEN and CTR.

/// CONNECT in mode 0.
pub const CONNECT: &[u8] = &[2, 0, 0, 0, 0xFF, 0];

/// DISCONNECT.
pub const DISCONNECT: &[u8] = &[1, 0, 11, 0, 0xFE];

/// SHORT_UPLOAD: the two bytes of the speed, without a DAQ list.
pub const READ_SPEED: &[u8] = &[8, 0, 1, 0, 0xF4, 2, 0, 0, 0x00, 0x10, 0, 0];

/// One DAQ list of one ODT, with an entry for the speed and one for the temperature; and its start.
pub const SET_UP: &[u8] = &[
    1, 0, 2, 0, 0xD6, // FREE_DAQ
    4, 0, 3, 0, 0xD5, 0, 1, 0, // ALLOC_DAQ: one list
    5, 0, 4, 0, 0xD4, 0, 0, 0, 1, // ALLOC_ODT: one ODT
    6, 0, 5, 0, 0xD3, 0, 0, 0, 0, 2, // ALLOC_ODT_ENTRY: two entries
    6, 0, 6, 0, 0xE2, 0, 0, 0, 0, 0, // SET_DAQ_PTR
    8, 0, 7, 0, 0xE1, 0xFF, 2, 0, 0x00, 0x10, 0, 0, // WRITE_DAQ: the speed
    8, 0, 8, 0, 0xE1, 0xFF, 1, 0, 0x02, 0x10, 0, 0, // WRITE_DAQ: the temperature
    8, 0, 9, 0, 0xE0, 0x10, 0, 0, 0, 0, 1, 0, // SET_DAQ_LIST_MODE: with timestamps
    4, 0, 10, 0, 0xDE, 1, 0, 0, // START_STOP_DAQ_LIST: start
];
