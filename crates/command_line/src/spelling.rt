//! Whether the standard's numbers are printed, or its names.

pub(crate) use command_tools::spelling_of;
