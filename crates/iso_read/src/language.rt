//! What terms are read by: the operators and the flags.
use iso_ops::{Flags, OpTable};
use std::alloc::Global;

/// The operators and the flags by which terms are read, and where their memory comes from.
#[derive(Clone, Copy)]
pub struct Language<'o> {
    pub alloc: Global,
    pub ops: &'o OpTable,
    pub flags: &'o Flags,
}
