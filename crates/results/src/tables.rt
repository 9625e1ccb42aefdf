use grammar::tree::Node;
use job::{Cell, Frame};
use typing::types::{Slot, TypeEntry};

// The tables that a sheet is read into and checked with.
#[derive(Drop)]
pub(crate) struct Tables<'a> {
    pub(crate) tree: &'a mut [Node],
    pub(crate) types: &'a mut [TypeEntry],
    pub(crate) slots: &'a mut [Slot],
}

// The tables that its job runs on, and how many steps it is allowed.
#[derive(Drop)]
pub(crate) struct Store<'a> {
    pub(crate) cells: &'a mut [Cell],
    pub(crate) frames: &'a mut [Frame],
    pub(crate) allowance: u32,
}
