// A step up to the point where a token is handed on or a macro's result is made.
ghost use Rattle.std.specs.Prelude.{◌≡◌, ℕ, ◌-◌, ◌&&◌, ◌||◌, is_ok, IfErr, if◌then◌else◌, Some, None, Ok, Err, ◌==◌, nat_eq, nat_lt};
ghost use Rattle.std.specs.List.{slice_get};
ghost use Rattle.text.specs.declared.FaultKind.TheVariants.{ArgumentCount, ManyReplacements};
ghost use Rattle.token.specs.Views.{view_tokens};
ghost use Rattle.item.specs.Sets.{in_set};
ghost use Rattle.definition.specs.Definitions.{member, variable};
ghost use Rattle.definitions.specs.Blocks.{spellings};
ghost use Rattle.invocation.specs.Calls.{inside, arguments_in};
ghost use Rattle.invocation.specs.Fronts.{waiting};
ghost use Rattle.replacement.specs.Meaning.{items_of, end_of};
ghost use Rattle.steps.specs.Calling.{is_opening, fault_at, open_fault, arguments_of, Calling};
ghost use Rattle.steps.specs.Contexts.{macros, file_of};
ghost use Rattle.steps.specs.Steps.{Preparing, Falling};

use crate::class::{BuiltIn, Class, front_class};
use crate::context::Context;
use crate::words::index_of;
use invocation::{Arguments, Bracket, GatherError, Run, drop_front, front_bracket};
use item::{HideSet, Name, TagTable};
use source::Ending;
use text::{Fault, FaultKind};
use token::Tokens;

// A token to be handed on: the next one, a function-like name that has been taken up but is not called, or what a
// built-in name stands for.
#[derive(Clone, Copy)]
pub enum Handed {
    Front,
    Name(usize, Name),
    BuiltIn(BuiltIn, Name),
}

// A macro that is replaced, by the slot of its definition; its result hides the set of the name.
#[derive(Clone, Copy)]
pub struct Call {
    pub slot: usize,
    pub name: Name,
}

#[derive(Clone, Copy)]
pub enum Prepared {
    End,
    Hand(Handed),
    Replace(Call),
}

// Takes up the next token. Where it is replaced, it and its arguments have been taken away, the replacement has been
// counted, and the arguments are parted.
pub fn prepare<R: Run>(
    context: Context<'_>,
    w: &mut TagTable<HideSet>,
    run: &mut R,
    arguments: &mut Arguments,
    left: &mut u32,
) -> Result<Prepared, Fault>
    ensures step { Preparing (macros context.entry) (file_of context.entry) (end_of (R.Run.end run.old)) (record { left = left.entry.now; w = waiting w.old; run = R.Run.rest run.old }) (record { left = left.exit.now; w = waiting w.new; run = R.Run.rest run.new }) (arguments_in (macros context.entry) arguments.new) result }
    ensures falls { Falling (record { left = left.entry.now; w = waiting w.old; run = R.Run.rest run.old }) (record { left = left.exit.now; w = waiting w.new; run = R.Run.rest run.new }) result }
    ensures same { R.Run.end run.new ≡ R.Run.end run.old }
{
    match front_class(context, w, run) {
        Class::End => Ok(Prepared::End),
        Class::Plain => Ok(Prepared::Hand(Handed::Front)),
        Class::BuiltIn(built_in, name) => {
            drop_front(w, run);
            let handed = Handed::BuiltIn(built_in, name);
            counted(left, name.line, Prepared::Hand(handed))
        }
        Class::Object(slot, name) => {
            drop_front(w, run);
            let call = call_of(slot, name, name.hides);
            counted(left, name.line, Prepared::Replace(call))
        }
        Class::Function(slot, name) => {
            drop_front(w, run);
            if is_called(front_bracket(w, run)) {
                drop_front(w, run);
                prepare_call(context, slot, name, w, run, arguments, left)
            } else {
                Ok(Prepared::Hand(Handed::Name(slot, name)))
            }
        }
    }
}

// The same of a function-like name whose `(` has been taken away too.
fn prepare_call<R: Run>(
    context: Context<'_>,
    slot: usize,
    name: Name,
    w: &mut TagTable<HideSet>,
    run: &mut R,
    arguments: &mut Arguments,
    left: &mut u32,
) -> Result<Prepared, Fault>
    ensures step { Calling (macros context.entry) (end_of (R.Run.end run.old)) slot name (record { left = left.entry.now; w = waiting w.old; run = R.Run.rest run.old }) (record { left = left.exit.now; w = waiting w.new; run = R.Run.rest run.new }) (arguments_in (macros context.entry) arguments.new) result }
    ensures falls { Falling (record { left = left.entry.now; w = waiting w.old; run = R.Run.rest run.old }) (record { left = left.exit.now; w = waiting w.new; run = R.Run.rest run.new }) result }
    ensures same { R.Run.end run.new ≡ R.Run.end run.old }
{
    match arguments.gather(w, run) {
        Err(GatherError::Full) => Err(FaultKind::ManyTokens.at(name.line)),
        Err(GatherError::Open) => Err(open_fault(run.ending(), name.line)),
        Ok(close) => {
            drop_front(w, run);
            if let Err(kind) = part(context, slot, arguments) {
                return Err(kind.at(name.line));
            }
            let call = call_of(slot, name, hidden_by(name, close));
            counted(left, name.line, Prepared::Replace(call))
        }
    }
}

// Parts the tokens in parentheses into arguments for the parameters of the definition.
fn part(context: Context<'_>, slot: usize, arguments: &mut Arguments) -> Result<(), FaultKind>
    ensures parts { arguments_of (slice_get (macros context.entry) slot) (items_of (macros context.entry) (inside arguments.old)) ≡ (if is_ok result then Some (arguments_in (macros context.entry) arguments.new) else None) }
    ensures fault { IfErr result (λ f. f ≡ ArgumentCount) }
{
    let definition = context
        .definitions
        .get(slot)
        .ok_or(FaultKind::ArgumentCount)?;
    let parameters = definition.parameters.ok_or(FaultKind::ArgumentCount)?;
    arguments.part(parameters.len(), has_variable(parameters))
}

// Whether one of the parameters is `__VA_ARGS__`.
fn has_variable(parameters: Tokens<'_>) -> bool
    ensures { result ≡ member variable (spellings (view_tokens parameters.entry)) }
{
    index_of(parameters, b"__VA_ARGS__").is_some()
}

fn is_called(bracket: Bracket) -> bool
    ensures { result ≡ is_opening bracket }
{
    matches!(bracket, Bracket::Opens)
}

// What both the name and the `)` of a call hide.
fn hidden_by(name: Name, close: HideSet) -> HideSet
    ensures { (k : ℕ) → in_set result k ≡ (in_set name.hides k && in_set close k) }
{
    name.hides.shared(close)
}

// The replacement of a name, with the set that its result hides besides the name.
fn call_of(slot: usize, name: Name, hides: HideSet) -> Call
    ensures place { result ≡ record { slot = slot; name = record { line = name.line; marked = name.marked; hides = result.name.hides } } }
    ensures hides { (k : ℕ) → in_set result.name.hides k ≡ ((k == slot && nat_lt slot 256) || in_set hides k) }
{
    let hides = hides.with(slot);
    Call {
        slot,
        name: Name { hides, ..name },
    }
}

// One replacement more, where one is left.
fn counted(left: &mut u32, line: u32, prepared: Prepared) -> Result<Prepared, Fault>
    ensures answer { result ≡ (if nat_eq left.old 0 then Err (fault_at ManyReplacements line) else Ok prepared) }
    ensures less { left.new ≡ left.old - 1 }
{
    let fault = FaultKind::ManyReplacements.at(line);
    *left = left.checked_sub(1).ok_or(fault)?;
    Ok(prepared)
}

// A call that is open at the end of its run.
fn open_fault(ending: Ending, line: u32) -> Fault
    ensures { result ≡ open_fault ending line }
{
    match ending {
        Ending::Whole => FaultKind::OpenCall.at(line),
        Ending::Fails(fault) => fault,
    }
}
