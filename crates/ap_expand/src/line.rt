ghost use Rattle.std.specs.Prelude.{◌≡◌, [], IfOk, false};
ghost use Rattle.ap_expand.specs.Lines.{mark_of, way_line};
ghost use Rattle.ap_expand.specs.Search.{written_step};
ghost use Rattle.ap_expand.specs.Walks.{way_of};

use ap_symbol::{Bytes, Memory};

/// Writes the line of a way, and answers whether it has one.
pub(crate) fn write_line(
    left: &[u8],
    right: &[u8],
    lr: bool,
    rl: bool,
    line: &mut Bytes,
) -> Result<bool, Memory>
    requires { line.old ≡ [] }
    ensures line { IfOk result (λ written. way_line (way_of left.now right.now lr rl)
        ≡ written_step written line.new) }
    ensures none { IfOk result (λ written. written ≡ false → line.new ≡ []) }
{
    if lr && rl {
        return Ok(false);
    }
    line.extend(left)?;
    line.extend(mark(lr, rl))?;
    line.extend(right)?;
    Ok(true)
}

/// What stands between the words of a line.
fn mark(lr: bool, rl: bool) -> &'static [u8]
    ensures { result.now ≡ mark_of lr rl }
{
    if lr {
        b":>:"
    } else if rl {
        b":<:"
    } else {
        b":"
    }
}
