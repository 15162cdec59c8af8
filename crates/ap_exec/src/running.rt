//! Running a body: one statement after another, and those that it leads to.
ghost use Rattle.std.specs.Prelude.{◌≡◌, ◌+◌, ◌<◌, ◌++◌, length, take, map, [], IfOk, OnOk};
ghost use Rattle.ap_rules.specs.Plain.{whens_of, call_macro};
ghost use Rattle.ap_rules.specs.Views.{plain_statement, plain_choose, plain_when};
ghost use Rattle.ap_exec.specs.Choosing.{chosen};
ghost use Rattle.ap_exec.specs.Costs.{cost_one, macro_cost};
ghost use Rattle.ap_exec.specs.Results.{Gives};
ghost use Rattle.ap_exec.specs.Running.{Definitions, RunState, run_all, macros_below, places_of, body_at, sight_of};
ghost use Rattle.ap_exec.specs.Stacks.{left, rest_first, one_first, StandsOn, IsScope, IsNested, Leads, stack_cost, rest_cost, between, body_of};
ghost use Rattle.ap_exec.specs.States.{body_in, run_state, definitions, sight};

use crate::changes::{append, assign, modify_case, put_out};
use crate::clips::number_at;
use crate::conditions::holds;
use crate::refusal::ExecRefusal;
use crate::spare::Spare;
use crate::stack::{Frame, Scope, Stack};
use crate::state::{State, View, World};
use ap_rules::{CallMacro, Choose, DefMacro, Statement, When};
use ap_symbol::Memory;
use std::alloc::Global;

/// The bodies for which room is made at once.
const FRAMES_ROOM: usize = 8;

/// No bodies, with room for some.
fn no_frames<'a>(alloc: Global) -> Result<Vec<Frame<'a>>, Memory>
    ensures { IfOk result (λ frames. frames.items ≡ []) }
{
    Ok(Vec::with_capacity(alloc, FRAMES_ROOM)?)
}

/// Puts the positions of a macro behind those of the body that calls it.
fn push_places(
    scope: Scope,
    params: &[usize],
    positions: &mut Vec<Option<usize>>,
) -> Result<(), Memory>
    requires { IsScope scope positions.old.items }
    ensures { OnOk result (positions.new.items ≡ take scope.to positions.old.items
        ++ places_of (between scope.from scope.to positions.old.items) params.now) }
{
    positions.truncate(scope.to);
    let first = number_at(&positions[scope.from..scope.to], 0);
    positions.push(first)?;
    'params: for param in params {
        let unit = number_at(&positions[scope.from..scope.to], *param);
        positions.push(unit)?;
    }
    Ok(())
}

/// The statements of a macro, or none where there is no macro of that number.
fn body_at(macros: &[DefMacro], n: usize) -> &[Statement]
    ensures { (world : Definitions) → world.bodies ≡ map body_in macros.now →
        body_of result.now ≡ body_at world n }
{
    match macros.get(n) {
        None => &[],
        Some(called) => &called.statements,
    }
}

/// What values are read from, while a body is run.
fn view_in<'a, 'u>(
    world: &'a World<'_>,
    positions: &'a [Option<usize>],
    state: &'a State<'u>,
) -> View<'a, 'u>
    ensures { sight result ≡ sight_of (definitions world.now) positions.now
        (run_state world.now state.now) }
{
    let world = World {
        form: world.form,
        attributes: world.attributes,
        lists: world.lists,
        macros: world.macros,
        vars: world.vars,
    };
    View {
        world,
        positions,
        units: &state.units,
        fresh: &state.fresh,
    }
}

/// The statements that a choice runs: those of the first `when` whose condition holds, or else the
/// others.
fn choice<'a>(
    alloc: Global,
    view: &View<'_, '_>,
    whens: &'a [When],
    otherwise: &'a [Statement],
) -> Result<&'a [Statement], ExecRefusal>
    ensures { Gives (λ taken. body_of taken.now) result
        (chosen (sight view.now) (whens_of (map plain_when whens.now)) (body_of otherwise.now)) }
{
    'whens: for when in whens {
        if holds(alloc, &*view, &when.test)? {
            return Ok(&when.statements);
        }
    }
    Ok(otherwise)
}

/// Puts the statements that a choice runs on top of the stack.
fn run_choose<'a>(
    alloc: Global,
    world: World<'a>,
    scope: Scope,
    held: &'a Choose,
    stack: &mut Stack<'a>,
    state: &State<'_>,
) -> Result<(), ExecRefusal>
    requires { StandsOn stack.old scope }
    ensures leads { Leads result
        (one_first (definitions world.entry) stack.old scope (plain_choose held.now)
        (run_state world.entry state.now))
        (left (definitions world.entry) stack.new (run_state world.entry state.now)) }
    ensures nested { OnOk result (IsNested stack.new) }
    ensures cost { OnOk result
        (stack_cost (definitions world.entry) stack.new < cost_one
        (macro_cost (definitions world.entry) scope.visible) (plain_choose held.now) + stack_cost
        (definitions world.entry) stack.old) }
{
    let positions = &stack.positions[scope.from..scope.to];
    let view = view_in(&world, positions, state);
    let taken = choice(alloc, &view, &held.whens, &held.otherwise)?;
    stack.push(taken, scope)?;
    Ok(())
}

/// Puts the statements of a macro on top of the stack, with the units that it is given. A macro
/// that isn't in view does nothing.
fn run_call<'a>(
    world: World<'a>,
    scope: Scope,
    held: &CallMacro,
    stack: &mut Stack<'a>,
) -> Result<(), Memory>
    requires { StandsOn stack.old scope }
    ensures left { OnOk result ((s : RunState) → left (definitions world.entry) stack.new s
        ≡ one_first (definitions world.entry) stack.old scope
        (call_macro held.now.n held.now.params.items) s) }
    ensures nested { OnOk result (IsNested stack.new) }
    ensures cost { OnOk result
        (stack_cost (definitions world.entry) stack.new
        < macro_cost (definitions world.entry) scope.visible held.now.n + 2 + stack_cost (definitions world.entry) stack.old) }
{
    if held.n >= scope.visible {
        return Ok(());
    }
    push_places(scope, &held.params, &mut stack.positions)?;
    let within = Scope {
        from: scope.to,
        to: stack.positions.len(),
        visible: held.n,
    };
    stack.push(body_at(world.macros, held.n), within)?;
    Ok(())
}

/// Runs a statement, or puts what it leads to on top of the stack.
fn run_statement<'a>(
    alloc: Global,
    world: World<'a>,
    scope: Scope,
    statement: &'a Statement,
    stack: &mut Stack<'a>,
    state: &mut State<'_>,
    spare: &mut Spare,
) -> Result<(), ExecRefusal>
    requires { StandsOn stack.old scope }
    ensures leads { Leads result
        (one_first (definitions world.entry) stack.old scope (plain_statement statement.now)
        (run_state world.entry state.old))
        (left (definitions world.entry) stack.new (run_state world.entry state.new)) }
    ensures nested { OnOk result (IsNested stack.new) }
    ensures cost { OnOk result
        (stack_cost (definitions world.entry) stack.new < cost_one
        (macro_cost (definitions world.entry) scope.visible) (plain_statement statement.now)
        + stack_cost (definitions world.entry) stack.old) }
{
    let positions = &stack.positions[scope.from..scope.to];
    match statement {
        Statement::Let(held) => assign(alloc, world, positions, held, state, spare),
        Statement::Append(held) => append(alloc, world, positions, held, state, spare),
        Statement::Out(held) => put_out(alloc, world, positions, held, state, spare),
        Statement::ModifyCase(held) => modify_case(alloc, world, positions, held, state, spare),
        Statement::Choose(held) => run_choose(alloc, world, scope, held, stack, state),
        Statement::CallMacro(held) => {
            run_call(world, scope, held, stack)?;
            Ok(())
        }
    }
}

/// Runs the first statement of a body, and puts the others below what it leads to.
fn run_first<'a>(
    alloc: Global,
    world: World<'a>,
    frame: Frame<'a>,
    stack: &mut Stack<'a>,
    state: &mut State<'_>,
    spare: &mut Spare,
) -> Result<(), ExecRefusal>
    requires { StandsOn stack.old frame.scope }
    ensures leads { Leads result
        (rest_first (definitions world.entry) stack.old frame.entry.scope frame.entry.rest.now
        (run_state world.entry state.old))
        (left (definitions world.entry) stack.new (run_state world.entry state.new)) }
    ensures nested { OnOk result (IsNested stack.new) }
    ensures cost { OnOk result
        (stack_cost (definitions world.entry) stack.new
        < rest_cost (definitions world.entry) frame.entry.scope frame.entry.rest.now + 1 + stack_cost (definitions world.entry) stack.old) }
{
    match frame.rest.split_first() {
        None => Ok(()),
        Some((statement, more)) => {
            stack.push(more, frame.scope)?;
            run_statement(alloc, world, frame.scope, statement, stack, state, spare)
        }
    }
}

/// Runs the statements of a body with these units at its positions. Each macro may be called.
pub(crate) fn run_body<'a>(
    alloc: Global,
    world: World<'a>,
    positions: Vec<Option<usize>>,
    action: &'a [Statement],
    state: &mut State<'_>,
    spare: &mut Spare,
) -> Result<(), ExecRefusal>
    ensures { Gives (λ _. run_state world.entry state.new) result
        (run_all (definitions world.entry)
        (macros_below (definitions world.entry) (length world.entry.macros.now)) positions.items
        (body_of action.now) (run_state world.entry state.old)) }
{
    let scope = Scope {
        from: 0,
        to: positions.len(),
        visible: world.macros.len(),
    };
    let bodies = no_frames(alloc)?;
    let mut stack = Stack {
        frames: bodies,
        positions,
    };
    stack.push(action, scope)?;
    'frames: while let Some(frame) = stack.frames.pop() {
        run_first(alloc, world, frame, &mut stack, state, spare)?;
    }
    let Stack {
        frames: _,
        positions,
    } = stack;
    spare.put_places(positions);
    Ok(())
}
