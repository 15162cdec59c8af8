ghost use Rattle.std.specs.Prelude.{◌≡◌, ℕ};
ghost use Rattle.ap_markup.specs.Marks.{mark_order};
ghost use Rattle.ap_markup.specs.Sooner.{is_before, sooner};

/// A kind of fault, which has a number: of the faults at one place the one of the least number
/// comes first.
pub trait Numbered {
    ghost number_of: { Self → ℕ };

    /// The number of the kind.
    fn number(self) -> u64
        ensures { result ≡ number_of self };
}

/// A fault of a text: where it stands, as an offset in bytes from the start of the text, its line,
/// counted from 1, and its kind.
#[derive(Clone, Copy)]
pub struct Mark<K> {
    pub place: u64,
    pub line: u64,
    pub kind: K,
}

fn is_before<K: Numbered + Copy>(f: Mark<K>, g: Mark<K>) -> bool
    ensures { result ≡ is_before (mark_order K.number_of) f g }
{
    f.place < g.place || (f.place == g.place && f.kind.number() < g.kind.number())
}

/// The first of two faults, by their places and then by their numbers.
pub fn sooner<K: Numbered + Copy>(
    first: Option<Mark<K>>,
    second: Option<Mark<K>>,
) -> Option<Mark<K>>
    ensures { result ≡ sooner (mark_order K.number_of) first second }
{
    match (first, second) {
        (None, other) => other,
        (Some(f), None) => Some(f),
        (Some(f), Some(g)) => { if is_before(g, f) { Some(g) } else { Some(f) } }
    }
}
