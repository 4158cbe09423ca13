// The result of a macro is made here, and arguments are expanded.
ghost use Rattle.std.specs.Prelude.{◌≡◌, List};
ghost use Rattle.std.specs.List.{slice_get};
ghost use Rattle.item.specs.Tables.{held, shown};
ghost use Rattle.replacement.specs.Items.{Item, limited};
ghost use Rattle.replacement.specs.Meaning.{items_of};
ghost use Rattle.replacement.specs.Replacing.{Turn, before};
ghost use Rattle.operators.specs.Pieces.{pieces_of};
ghost use Rattle.steps.specs.Contexts.{macros};
ghost use Rattle.steps.specs.Steps.{result_of};
ghost use Rattle.expansion.specs.States.{waiting_in, arguments_of, expander, Matches, Moving, Fewer, pieces_for};

use crate::level::Level;
use crate::part::{Part, part_of};
use crate::pieces::add_part;
use invocation::TableRun;
use item::{HideSet, TagTable, TagView};
use operators::place_result;
use steps::{Call, Context, Prepared, hand_on, prepare};
use text::{Fault, FaultKind};

// The result of a macro goes before W. Answers how many replacements are left.
#[cycle(build_expand_argument_replace)]
pub(crate) fn replace(
    context: Context<'_>,
    call: Call,
    level: &mut Level,
    below: &mut [Level],
    left: u32,
) -> Result<u32, Fault>
    ensures result { (next : Turn) (run : List Item) → Moving next (before call.name.line (waiting_in context.entry level.old) run (result_of (expander context.entry below.old) (macros context.entry) (arguments_of context.entry level.old) call left)) (waiting_in context.entry level.new) run result }
    ensures fewer { Fewer left result }
{
    let left = build(context, call, level, below, left)?;
    match place_result(
        &level.pieces,
        &mut level.joined,
        &mut level.spelling,
        call.name,
        &mut level.w,
    ) {
        Ok(()) => Ok(left),
        Err(kind) => Err(kind.at(call.name.line)),
    }
}

// The replacement list with its parameters substituted, up to joining.
#[cycle(build_expand_argument_replace)]
fn build(
    context: Context<'_>,
    call: Call,
    level: &mut Level,
    below: &mut [Level],
    left: u32,
) -> Result<u32, Fault>
    ensures pieces { Matches (pieces_for (expander context.entry below.old) (arguments_of context.entry level.old) call left (slice_get (macros context.entry) call.slot)) (pieces_of (macros context.entry) (held level.new.pieces)) result }
    ensures same { level.new.w ≡ level.old.w }
{
    level.pieces.clear();
    let Some(definition) = context.definition(call.slot) else {
        return Ok(left);
    };
    let mut left = left;
    let mut rest = definition.list;
    let mut joins = false;
    while let Some(token) = rest.next() {
        let part = part_of(
            token,
            rest.get(0),
            definition.parameters,
            level.arguments.len(),
            joins,
        );
        if let Part::Expanded(index) = part {
            left = expand_argument(
                context,
                call.name.line,
                level.arguments.get(index),
                below,
                &mut level.expanded,
                left,
            )?;
        }
        if let Err(kind) = add_part(
            part,
            token,
            call.name.line,
            &level.arguments,
            &level.expanded,
            &mut level.spelling,
            &mut level.pieces,
        ) {
            return Err(kind.at(call.name.line));
        }
        joins = part.is_join();
        if part.is_literal() {
            rest.next();
        }
    }
    Ok(left)
}

// An argument expanded alone, at the end of which `to` holds its tokens. Answers how many replacements are left.
#[cycle(build_expand_argument_replace)]
fn expand_argument(
    context: Context<'_>,
    line: u32,
    argument: TagView<'_, HideSet>,
    scratch: &mut [Level],
    to: &mut TagTable<HideSet>,
    left: u32,
) -> Result<u32, Fault>
    ensures { Matches (limited line (expander context.entry scratch.old line left (items_of (macros context.entry) (shown argument.entry)))) (items_of (macros context.entry) (held to.new)) result }
{
    let Some((level, below)) = scratch.split_first_mut() else {
        return Err(FaultKind::DeepArguments.at(line));
    };
    level.w.clear();
    to.clear();
    let mut run = TableRun { items: argument };
    let mut left = left;
    loop {
        match prepare(
            context,
            &mut level.w,
            &mut run,
            &mut level.arguments,
            &mut left,
        )? {
            Prepared::End => return Ok(left),
            Prepared::Hand(handed) => {
                let pushed = hand_on(
                    context,
                    handed,
                    &mut level.w,
                    &mut run,
                    &mut level.spelling,
                    to,
                );
                if pushed.is_err() {
                    return Err(FaultKind::ManyTokens.at(line));
                }
            }
            Prepared::Replace(call) => left = replace(context, call, level, below, left)?,
        }
    }
}
