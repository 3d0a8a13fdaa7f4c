//! The line that says which fault ended a run.
ghost use Rattle.std.specs.Prelude.{◌≡◌, ◌+◌, ◌≤◌, ◌++◌, decimal, length};
ghost use Rattle.arrayvec.specs.ArrayVec.{array_vec_len};
ghost use Rattle.script_core.specs.Stops.{Tells, fault_line};

use arrayvec::ArrayVec;
use itoa::Buffer;
use text_core::{Output, RunError, write_out};

/// Writes the line of a fault. Where the write fails, nothing more is done.
pub(crate) fn report<F: Output>(faults: &mut F, error: RunError)
    ensures { Tells error (F.contents faults.old) (F.contents faults.new) (F.stuck faults.new) }
{
    let _ = write_out(faults, &line_of(&error));
}

fn line_of(error: &RunError) -> ArrayVec<u8, 72>
    ensures { result.items ≡ fault_line error.now }
{
    let mut line = ArrayVec::new();
    push_field(&mut line, b"compactd: fault ", u64::from(error.number()));
    push_field(&mut line, b" at line ", error.line);
    push(&mut line, b"\n");
    line
}

/// Appends a name and a number.
fn push_field(line: &mut ArrayVec<u8, 72>, name: &[u8], number: u64)
    requires { array_vec_len line.old + length name.now + 20 ≤ 72 }
    ensures text { line.new.items ≡ line.old.items ++ name.now ++ decimal number }
    ensures len { array_vec_len line.new ≤ array_vec_len line.old + length name.now + 20 }
{
    push(line, name);
    let mut digits = Buffer::new();
    push(line, digits.format(number).as_bytes());
}

/// Appends bytes.
fn push(line: &mut ArrayVec<u8, 72>, bytes: &[u8])
    requires { array_vec_len line.old + length bytes.now ≤ 72 }
    ensures text { line.new.items ≡ line.old.items ++ bytes.now }
    ensures len { array_vec_len line.new ≡ array_vec_len line.old + length bytes.now }
{
    let _ = line.try_extend_from_slice(bytes);
}
