//! The numbers of the ELF format that matter here (System V ABI, "Object Files").

/// The size of the file header.
pub(crate) const FILE_HEADER_SIZE: usize = 64;

// Where the file header has its fields.
pub(crate) const EI_MAG: usize = 0;

pub(crate) const EI_CLASS: usize = 4;

pub(crate) const EI_DATA: usize = 5;

pub(crate) const EI_VERSION: usize = 6;

pub(crate) const E_TYPE: usize = 16;

pub(crate) const E_MACHINE: usize = 18;

pub(crate) const E_VERSION: usize = 20;

pub(crate) const E_ENTRY: usize = 24;

pub(crate) const E_PHOFF: usize = 32;

pub(crate) const E_FLAGS: usize = 48;

pub(crate) const E_PHENTSIZE: usize = 54;

pub(crate) const E_PHNUM: usize = 56;

/// The bytes 7F 45 4C 46 as a number, the lowest byte first.
pub(crate) const ELF_MAGIC: u32 = 0x464C_457F;
/// `ELFCLASS64`
pub(crate) const CLASS_64: u8 = 2;
/// `ELFDATA2LSB`
pub(crate) const LITTLE_ENDIAN: u8 = 1;

pub(crate) const ET_EXEC: u16 = 2;

pub(crate) const EM_RISCV: u16 = 243;
/// The bit of `e_flags` for programs that need the memory model Ztso.
pub(crate) const EF_RISCV_TSO: u32 = 16;

/// The size of an entry of the program header table.
pub(crate) const ENTRY_SIZE: usize = 56;

// Types of segments, of `p_type`.
pub(crate) const PT_LOAD: u32 = 1;

pub(crate) const PT_DYNAMIC: u32 = 2;

pub(crate) const PT_INTERP: u32 = 3;

// Flags of segments, of `p_flags`.
pub(crate) const PF_X: u32 = 1;

pub(crate) const PF_W: u32 = 2;

pub(crate) const PF_R: u32 = 4;
