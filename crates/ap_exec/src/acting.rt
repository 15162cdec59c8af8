//! Running a rule on a match.
ghost use Rattle.std.specs.Prelude.{◌≡◌, OnErr, is_some};
ghost use Rattle.ap_rules.specs.Views.{plain_rules};
ghost use Rattle.ap_exec.specs.Acting.{act_of, units_in};
ghost use Rattle.ap_exec.specs.Results.{Gives};
ghost use Rattle.ap_exec.specs.States.{overlaid};
ghost use Rattle.ap_exec.specs.declared.matched.Matched.{Matched};

use crate::beginning::{action_of, positions_of, units_of, world_of};
use crate::lending::own_template;
use crate::lent::{Lent, let_units_go};
use crate::lent_template::LentTemplate;
use crate::matched::Matched;
use crate::output::Output;
use crate::refusal::ExecRefusal;
use crate::running::run_body;
use crate::spare::Spare;
use crate::state::State;
use crate::template::Template;
use crate::vars::Vars;
use ap_rules::Rules;
use ap_symbol::Word;
use std::alloc::Global;

/// What a run gives: its pieces, and the new values of variables.
#[derive(Drop)]
struct Given<'a> {
    pieces: LentTemplate<'a>,
    fresh: Vec<Option<Word>>,
}

/// Runs a rule on these units, with the chunk before them or without, with new values beside those
/// of the variables.
fn run_rule<'a>(
    alloc: Global,
    rules: &Rules,
    rule: usize,
    has_chunk: bool,
    units: Vec<Lent<'a>>,
    vars: &[Word],
    spare: &mut Spare,
) -> Result<Given<'a>, ExecRefusal>
    ensures { (m : Matched) → units.entry.items ≡ units_in m.chunk m.units →
        has_chunk ≡ is_some m.chunk →
        Gives (λ g. record { pieces = g.pieces; vars = overlaid vars.now g.fresh.items })
        result (act_of (plain_rules rules.now) rule m vars.now) }
{
    let world = world_of(rules, vars);
    let positions = positions_of(alloc, has_chunk, units.len(), spare)?;
    let fresh = spare.take_fresh(alloc);
    let mut state = State {
        units,
        fresh,
        pieces: Output::new(alloc),
    };
    run_body(
        alloc,
        world,
        positions,
        action_of(rules, rule),
        &mut state,
        spare,
    )?;
    let State {
        units,
        fresh,
        pieces,
    } = state;
    let_units_go(units, spare);
    let pieces = pieces.into_template();
    Ok(Given { pieces, fresh })
}

/// What a rule does to a match, as `act` says it, where the units of the match by number are these
/// lent ones: the chunk first, where there is one. The template keeps words of the match as they
/// stand there. Words are made in the room of spare ones, and those that were put in place of
/// others or written to are spare afterwards.
pub fn act_lent<'a>(
    alloc: Global,
    rules: &Rules,
    rule: usize,
    has_chunk: bool,
    units: Vec<Lent<'a>>,
    vars: &mut Vars,
    spare: &mut Spare,
) -> Result<LentTemplate<'a>, ExecRefusal>
    ensures gives { (m : Matched) → units.entry.items ≡ units_in m.chunk m.units →
        has_chunk ≡ is_some m.chunk →
        Gives (λ pieces. record { pieces = pieces; vars = vars.new }) result
        (act_of (plain_rules rules.now) rule m vars.old) }
    ensures refused { OnErr result (vars.new ≡ vars.old) }
{
    let given = run_rule(alloc, rules, rule, has_chunk, units, vars.as_slice(), spare)?;
    let Given { pieces, fresh } = given;
    vars.put(fresh, spare);
    Ok(pieces)
}

/// What a rule does to a match: the template that it gives, and new values of the variables. Its
/// statements are run in the order in which they stand (the Apertium transfer format). A number
/// that names nothing, as of a rule, a unit, a variable or a macro that isn't there, gives the
/// empty word, or does nothing.
///
/// `ValueTooLong` comes exactly where a value has more than `UNIT_MAX` bytes, and `OutputTooLong`
/// exactly where the pieces, without their slots, have more than `SPAN_MAX` bytes, whichever comes
/// first in document order. `Memory` means want of memory. After a refusal the variables are as
/// before.
pub fn act(
    alloc: Global,
    rules: &Rules,
    rule: usize,
    matched: &Matched,
    vars: &mut Vars,
) -> Result<Template, ExecRefusal>
    ensures gives { Gives (λ pieces. record { pieces = pieces; vars = vars.new }) result
        (act_of (plain_rules rules.now) rule matched.now vars.old) }
    ensures refused { OnErr result (vars.new ≡ vars.old) }
{
    let units = units_of(alloc, matched)?;
    let chunk = matched.chunk.is_some();
    let mut kept = Spare::new(alloc);
    let given = run_rule(alloc, rules, rule, chunk, units, vars.as_slice(), &mut kept)?;
    let Given { pieces, fresh } = given;
    let template = own_template(alloc, pieces.as_slice())?;
    vars.put(fresh, &mut kept);
    Ok(template)
}
