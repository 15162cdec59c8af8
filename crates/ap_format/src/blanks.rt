ghost use Rattle.std.specs.Prelude.{◌≡◌, ◌++◌, eqb, true, OnOk};
ghost use Rattle.std.specs.List.{list_any};
ghost use Rattle.ap_format.specs.declared.blanks.Spot.TheVariants.{Outside};
ghost use Rattle.ap_format.specs.Reformatted.{bare_blank, is_kept as kept_test, next_spot as spot_after};

use ap_symbol::Memory;

/// Where a byte of a blank stands.
#[derive(Clone, Copy, Debug, PartialEq, Eq)]
pub(crate) enum Spot {
    Outside,
    /// In a superblank.
    Inside,
    /// Behind a backslash in a superblank.
    Escaped,
}

fn next_spot(at: Spot, byte: u8) -> Spot
    ensures { result ≡ spot_after at byte }
{
    match at {
        Spot::Outside => {
            if byte == b'[' {
                Spot::Inside
            } else {
                Spot::Outside
            }
        }
        Spot::Inside => match byte {
            b']' => Spot::Outside,
            b'\\' => Spot::Escaped,
            _ => Spot::Inside,
        },
        Spot::Escaped => Spot::Inside,
    }
}

fn is_kept(at: Spot, byte: u8) -> bool
    ensures { result ≡ kept_test at byte }
{
    match at {
        Spot::Outside => byte != b'[',
        Spot::Inside => byte != b']' && byte != b'\\',
        Spot::Escaped => true,
    }
}

/// Whether there is a bracket that begins a superblank.
pub(crate) fn has_bracket(bytes: &[u8]) -> bool
    ensures { result ≡ list_any (λ b. eqb b 91) bytes.now }
{
    bytes.iter().any(|byte| *byte == b'[')
}

/// Appends the bytes of a blank without the brackets of its superblanks, and without the
/// backslashes in them. After a refusal some of them may stand there.
pub(crate) fn push_bare(bytes: &[u8], text: &mut Vec<u8>) -> Result<(), Memory>
    ensures { OnOk result (text.new.items ≡ text.old.items ++ bare_blank Outside bytes.now) }
{
    let mut at = Spot::Outside;
    for byte in bytes {
        if is_kept(at, *byte) {
            text.push(*byte)?;
        }
        at = next_spot(at, *byte);
    }
    Ok(())
}
