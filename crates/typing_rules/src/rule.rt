//! The numbers of the typing rules.

pub const MODULE_NAME_IS_NEW: u8 = 1;

pub const LOCAL_NAME_IS_NEW: u8 = 2;

pub const PARAM_IS_LINK: u8 = 3;

pub const ROW_HAS_LENGTH: u8 = 4;

pub const OP_HAS_FEW_LINKS: u8 = 5;

pub const ENTRY_IS_OF_OP: u8 = 6;

pub const ENTRY_HAS_PARAMETERS: u8 = 7;

pub const NAME_IS_OF_KIND: u8 = 8;

pub const OPERAND_IS_INT: u8 = 9;

pub const OPERANDS_COMPARE: u8 = 10;

pub const OPERAND_IS_BOOL: u8 = 11;

pub const CONDITION_IS_BOOL: u8 = 12;

pub const VALUE_IS_OF_TARGET: u8 = 13;

pub const MEMBER_IS_OF_ROW: u8 = 14;

pub const NEW_NAMES_DIFFER: u8 = 15;

pub const VARIABLE_IS_LINK: u8 = 16;

pub const CONNECT_HAS_VALUES: u8 = 17;

pub const CONNECT_HAS_NAMES: u8 = 18;

pub const ACCEPT_HAS_NAMES: u8 = 19;

pub const REPLY_HAS_REQUEST: u8 = 20;

pub const REPLY_HAS_VALUES: u8 = 21;

pub const VALUE_IS_WRITTEN: u8 = 22;

pub const NAMES_EXCEPTION: u8 = 23;

pub const OP_FITS_PACKETS: u8 = 24;
