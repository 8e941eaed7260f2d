//! The standard's names of commands, errors, events and services, by their codes.
ghost use Rattle.std.specs.Prelude.{◌≡◌, map, option_map};
ghost use Rattle.explain.specs.Names.{command_name, error_name, event_name, named, service_name};

/// The name of the command with this code (ASAM MCD-1 XCP, protocol layer, command codes).
pub fn command_name(code: u8) -> Option<&'static str>
    ensures { option_map (λ name. name.now) result ≡ command_name code }
{
    named(code, &COMMANDS)
}

/// The name of the error with this code (ASAM MCD-1 XCP, protocol layer, error codes).
pub fn error_name(code: u8) -> Option<&'static str>
    ensures { option_map (λ name. name.now) result ≡ error_name code }
{
    named(code, &ERRORS)
}

/// The name of the event with this code (ASAM MCD-1 XCP, protocol layer, event codes).
pub fn event_name(code: u8) -> Option<&'static str>
    ensures { option_map (λ name. name.now) result ≡ event_name code }
{
    named(code, &EVENTS)
}

/// The name of the service request with this code (ASAM MCD-1 XCP, protocol layer, service request
/// codes).
pub fn service_name(code: u8) -> Option<&'static str>
    ensures { option_map (λ name. name.now) result ≡ service_name code }
{
    named(code, &SERVICES)
}

/// The name of a code in a table.
fn named<'a>(code: u8, table: &[(u8, &'a str)]) -> Option<&'a str>
    ensures { option_map (λ name. name.now) result
        ≡ named (map (λ row. (row.0, row.1.now)) table.now) code }
{
    for (of, name) in table {
        if *of == code {
            return Some(*name);
        }
    }
    None
}

/// The commands.
const COMMANDS: [(u8, &str); 59] = [
    (0xFF, "CONNECT"),
    (0xFE, "DISCONNECT"),
    (0xFD, "GET_STATUS"),
    (0xFC, "SYNCH"),
    (0xFB, "GET_COMM_MODE_INFO"),
    (0xFA, "GET_ID"),
    (0xF9, "SET_REQUEST"),
    (0xF8, "GET_SEED"),
    (0xF7, "UNLOCK"),
    (0xF6, "SET_MTA"),
    (0xF5, "UPLOAD"),
    (0xF4, "SHORT_UPLOAD"),
    (0xF3, "BUILD_CHECKSUM"),
    (0xF2, "TRANSPORT_LAYER_CMD"),
    (0xF1, "USER_CMD"),
    (0xF0, "DOWNLOAD"),
    (0xEF, "DOWNLOAD_NEXT"),
    (0xEE, "DOWNLOAD_MAX"),
    (0xED, "SHORT_DOWNLOAD"),
    (0xEC, "MODIFY_BITS"),
    (0xEB, "SET_CAL_PAGE"),
    (0xEA, "GET_CAL_PAGE"),
    (0xE9, "GET_PAG_PROCESSOR_INFO"),
    (0xE8, "GET_SEGMENT_INFO"),
    (0xE7, "GET_PAGE_INFO"),
    (0xE6, "SET_SEGMENT_MODE"),
    (0xE5, "GET_SEGMENT_MODE"),
    (0xE4, "COPY_CAL_PAGE"),
    (0xE3, "CLEAR_DAQ_LIST"),
    (0xE2, "SET_DAQ_PTR"),
    (0xE1, "WRITE_DAQ"),
    (0xE0, "SET_DAQ_LIST_MODE"),
    (0xDF, "GET_DAQ_LIST_MODE"),
    (0xDE, "START_STOP_DAQ_LIST"),
    (0xDD, "START_STOP_SYNCH"),
    (0xDC, "GET_DAQ_CLOCK"),
    (0xDB, "READ_DAQ"),
    (0xDA, "GET_DAQ_PROCESSOR_INFO"),
    (0xD9, "GET_DAQ_RESOLUTION_INFO"),
    (0xD8, "GET_DAQ_LIST_INFO"),
    (0xD7, "GET_DAQ_EVENT_INFO"),
    (0xD6, "FREE_DAQ"),
    (0xD5, "ALLOC_DAQ"),
    (0xD4, "ALLOC_ODT"),
    (0xD3, "ALLOC_ODT_ENTRY"),
    (0xD2, "PROGRAM_START"),
    (0xD1, "PROGRAM_CLEAR"),
    (0xD0, "PROGRAM"),
    (0xCF, "PROGRAM_RESET"),
    (0xCE, "GET_PGM_PROCESSOR_INFO"),
    (0xCD, "GET_SECTOR_INFO"),
    (0xCC, "PROGRAM_PREPARE"),
    (0xCB, "PROGRAM_FORMAT"),
    (0xCA, "PROGRAM_NEXT"),
    (0xC9, "PROGRAM_MAX"),
    (0xC8, "PROGRAM_VERIFY"),
    (0xC7, "WRITE_DAQ_MULTIPLE"),
    (0xC6, "TIME_CORRELATION_PROPERTIES"),
    (0xC5, "DTO_CTR_PROPERTIES"),
];

/// The errors.
const ERRORS: [(u8, &str); 21] = [
    (0x00, "ERR_CMD_SYNCH"),
    (0x10, "ERR_CMD_BUSY"),
    (0x11, "ERR_DAQ_ACTIVE"),
    (0x12, "ERR_PGM_ACTIVE"),
    (0x20, "ERR_CMD_UNKNOWN"),
    (0x21, "ERR_CMD_SYNTAX"),
    (0x22, "ERR_OUT_OF_RANGE"),
    (0x23, "ERR_WRITE_PROTECTED"),
    (0x24, "ERR_ACCESS_DENIED"),
    (0x25, "ERR_ACCESS_LOCKED"),
    (0x26, "ERR_PAGE_NOT_VALID"),
    (0x27, "ERR_MODE_NOT_VALID"),
    (0x28, "ERR_SEGMENT_NOT_VALID"),
    (0x29, "ERR_SEQUENCE"),
    (0x2A, "ERR_DAQ_CONFIG"),
    (0x30, "ERR_MEMORY_OVERFLOW"),
    (0x31, "ERR_GENERIC"),
    (0x32, "ERR_VERIFY"),
    (0x33, "ERR_RESOURCE_TEMPORARY_NOT_ACCESSIBLE"),
    (0x34, "ERR_SUBCMD_UNKNOWN"),
    (0x35, "ERR_TIMECORR_STATE_CHANGE"),
];

/// The events.
const EVENTS: [(u8, &str); 14] = [
    (0x00, "EV_RESUME_MODE"),
    (0x01, "EV_CLEAR_DAQ"),
    (0x02, "EV_STORE_DAQ"),
    (0x03, "EV_STORE_CAL"),
    (0x05, "EV_CMD_PENDING"),
    (0x06, "EV_DAQ_OVERLOAD"),
    (0x07, "EV_SESSION_TERMINATED"),
    (0x08, "EV_TIME_SYNC"),
    (0x09, "EV_STIM_TIMEOUT"),
    (0x0A, "EV_SLEEP"),
    (0x0B, "EV_WAKE_UP"),
    (0x0C, "EV_ECU_STATE_CHANGE"),
    (0xFE, "EV_USER"),
    (0xFF, "EV_TRANSPORT"),
];

/// The service requests.
const SERVICES: [(u8, &str); 2] = [(0x00, "SERV_RESET"), (0x01, "SERV_TEXT")];
