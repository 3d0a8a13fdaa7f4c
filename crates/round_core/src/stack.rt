//! The stacks of a round's threads.

use core::thread::Stack;

/// In bytes: the stack of a thread of Rust's own. The C library's default is eight MiB on Linux. Five stacks of that size are more
/// than it keeps for later threads, so each round would map and unmap some.
const SIZE: usize = 2 * 1024 * 1024;

/// The stack of a thread that is to start.
pub(crate) fn stack() -> Stack {
    Stack::new().stack_size(SIZE)
}
