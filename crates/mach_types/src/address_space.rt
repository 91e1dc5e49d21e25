//! The address space of a process: what lies where (own, where Linux leaves it free).

/// The bytes of a page, and of a frame.
pub const PAGE_SIZE: u64 = 4096;

/// Addresses of a process end here: 2^38.
pub const USER_END: u64 = 0x40_0000_0000;

/// The number of the first page of the stack, which begins at 0x3FFFF00000.
pub const FIRST_STACK_PAGE: u64 = 0x3FF_FF00;

/// How many pages the stack has.
pub const STACK_PAGES: u64 = 64;

/// The number of the page that signal handlers return to, which begins at 0x3FFFFF0000.
pub const RETURN_PAGE: u64 = 0x3FF_FFF0;

/// Where signal handlers without SA_SIGINFO return to: the first address of that page.
pub const HANDLER_RETURN: u64 = 0x3F_FFFF_0000;

/// Where signal handlers with SA_SIGINFO return to, two instructions further on.
pub const INFO_HANDLER_RETURN: u64 = 0x3F_FFFF_0008;

/// Where the call stands by which a handler with SA_SIGINFO returns.
pub const INFO_RETURN_CALL: u64 = 0x3F_FFFF_000C;

/// Mappings lie from this address upwards, and segments of a program below it: 2^37.
pub const MAPPING_START: u64 = 0x20_0000_0000;

/// The number of the first page at which a mapping can lie.
pub const FIRST_MAPPING_PAGE: u64 = MAPPING_START / PAGE_SIZE;

/// The stack pointer at the start: there stands the argument count.
pub const START_SP: u64 = 0x3F_FFF3_FF30;

/// Where the program's name stands, and behind it 16 zero bytes.
pub const NAME_AT: u64 = 0x3F_FFF3_FFE0;
