//! What is left to run of a rule and of the macros that it calls.
ghost use Rattle.std.specs.Prelude.{◌≡◌, ◌+◌, ◌≤◌, OnOk};
ghost use Rattle.ap_exec.specs.Running.{Definitions, RunState};
ghost use Rattle.ap_exec.specs.Stacks.{left, rest_first, StandsOn, IsNested, stack_cost, rest_cost};

use ap_rules::Statement;
use ap_symbol::Memory;

/// Where the positions of a body stand, from one place up to another, and how many macros it may
/// call.
#[derive(Clone, Copy)]
pub(crate) struct Scope {
    pub(crate) from: usize,
    pub(crate) to: usize,
    pub(crate) visible: usize,
}

/// The statements of a body that are left to run.
#[derive(Clone, Copy)]
pub(crate) struct Frame<'a> {
    pub(crate) rest: &'a [Statement],
    pub(crate) scope: Scope,
}

/// The bodies that are being run, each begun in the one before it, and the positions of all of
/// them, one behind another. So macros that call macros take no room on the program's own stack.
#[derive(Drop)]
pub(crate) struct Stack<'a> {
    pub(crate) frames: Vec<Frame<'a>>,
    pub(crate) positions: Vec<Option<usize>>,
}

impl<'a> Stack<'a> {
    /// Puts statements on top, unless there are none.
    pub(crate) fn push(&mut self, rest: &'a [Statement], scope: Scope) -> Result<(), Memory>
        requires { StandsOn self.old scope }
        ensures left { OnOk result ((w : Definitions) (s : RunState) →
            left w self.new s ≡ rest_first w self.old scope rest.now s) }
        ensures nested { OnOk result (IsNested self.new) }
        ensures stands { OnOk result (StandsOn self.new scope) }
        ensures positions { self.new.positions ≡ self.old.positions }
        ensures cost { OnOk result ((w : Definitions) →
            stack_cost w self.new ≤ rest_cost w scope rest.now + 1 + stack_cost w self.old) }
    {
        if rest.is_empty() {
            return Ok(());
        }
        self.frames.push(Frame { rest, scope })?;
        Ok(())
    }
}
