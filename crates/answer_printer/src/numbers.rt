//! Numbers in decimal.
ghost use Rattle.std.specs.Prelude.{◌≡◌, ◌++◌, decimal, OnErr, OnOk};

use std::alloc::AllocError;

/// Appends `number` in decimal. If memory is refused, it returns `AllocError`, and `output` is
/// unchanged.
pub fn append_number(number: u64, output: &mut Vec<u8>) -> Result<(), AllocError>
    ensures ok { OnOk result (output.new.items ≡ output.old.items ++ decimal number) }
    ensures err { OnErr result (output.new.items ≡ output.old.items) }
{
    let mut digits = itoa::Buffer::new();
    output.extend_from_slice(digits.format(number).as_bytes())
}
