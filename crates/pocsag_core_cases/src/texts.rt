//! Texts that tests of several crates expect of faults.

pub const NO_MEMORY: &str = "out of memory";

pub const NO_READ: &str = "cannot read or open a file";

pub const NO_WRITE: &str = "cannot write";

pub const TOO_LARGE: &str = "the file is too large";

pub const NO_PAGES: &str = "there are no pages";

pub const IS_THERE: &str = "the address is already there";

pub const CUT_SHORT: &str = "the transmission is cut short";

pub const BAD_RATE: &str = "the rate must be 512, 1200 or 2400";

pub const BAD_LIMIT: &str = "the limit must be 1 to 1000000";

pub const LIMIT_REACHED: &str = "search limit reached: at least 2 batches, 3 would do";
