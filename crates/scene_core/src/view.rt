//! What the screen shows, lent for a look.
use stack_core::Stack;
use tree_core::{Pointer, Tree};

/// What the screen shows: the widgets of all clients, the numbers of the open windows from top to bottom, the
/// pointer, and the screen's width and height in pixels. Contracts see it as a scene. See docs/MACHINE.md,
/// "Layout".
#[derive(Clone, Copy)]
pub struct View<'a> {
    pub tree: &'a Tree,
    pub stack: &'a Stack,
    pub pointer: &'a Pointer,
    pub width: u32,
    pub height: u32,
}
