ghost use Rattle.std.specs.Prelude.{◌≡◌, ◌++◌, IfSome, OnOk};

use std::alloc::AllocError;
use std::fmt::Display;
use std::io::Write;

/// Writes a piece at the end.
pub(crate) fn put(text: &mut Vec<u8>, piece: &[u8]) -> Result<(), AllocError>
    ensures { OnOk result (text.new.items ≡ text.old.items ++ piece.now) }
{
    text.extend_from_slice(piece)
}

/// Writes a value at the end, as `{}` prints it.
pub(crate) fn put_printed<D: Display + Drop>(text: &mut Vec<u8>, value: D) -> Result<(), AllocError>
    ensures { OnOk result (IfSome (D.output value) (λ printed. text.new.items ≡ text.old.items ++ printed)) }
{
    text.write_fmt(value).map_err(|_| AllocError)
}
