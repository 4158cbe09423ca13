// Tokens are parted into arguments here.
ghost use Rattle.std.specs.Prelude.{◌≡◌, ◌-◌, ◌≤◌, ◌&&◌, List, [], map, length, is_ok, IfErr, if◌then◌else◌, vec_capacity, codes, ◌==◌, nat_le};
ghost use Rattle.text.specs.declared.FaultKind.TheVariants.{ArgumentCount};
ghost use Rattle.item.specs.Tables.{shown, referred_to};
ghost use Rattle.definition.specs.Definitions.{Macro, spells};
ghost use Rattle.replacement.specs.Meaning.{items_of};
ghost use Rattle.replacement.specs.Replacing.{parted as parted_at};
ghost use Rattle.invocation.specs.Calls.{part_of};

use crate::bracket::{bracket_of, depth_behind};
use item::{HideSet, TagRef, TagView};
use text::{Extent, FaultKind};

// Whether there are as many arguments as parameters.
pub(crate) fn same_count(arguments: usize, parameters: usize) -> Result<(), FaultKind>
    ensures same { is_ok result ≡ (arguments == parameters) }
    ensures fault { IfErr result (λ f. f ≡ ArgumentCount) }
{
    if arguments == parameters {
        Ok(())
    } else {
        Err(FaultKind::ArgumentCount)
    }
}

// At how many commas the arguments may be parted.
pub(crate) fn most_commas(parameters: usize, variable: bool, len: usize) -> usize
    ensures { result ≡ (if variable then parameters - 1 else len) }
{
    if variable {
        parameters.saturating_sub(1)
    } else {
        len
    }
}

// The tokens are parted at commas outside parentheses, at most so many times.
pub(crate) fn part_at_commas(inside: TagView<'_, HideSet>, most: usize, extents: &mut Vec<Extent>)
    requires few { length (shown inside) ≤ 1024 }
    requires none { extents.old.items ≡ [] }
    requires room { 1025 ≤ vec_capacity extents.old }
    ensures parts { (ms : List Macro) → map (part_of ms (shown inside.entry)) extents.new.items ≡ parted_at most 0 (items_of ms (shown inside.entry)) }
    ensures room { 1025 ≤ vec_capacity extents.new }
{
    let mut left = most;
    let mut start = 0;
    let mut depth = 0;
    for (at, item) in inside.enumerate() {
        if is_parting(item, depth, left) {
            extents.push_reserved(between(start, at));
            start = at + 1;
            left -= 1;
        } else {
            depth = depth_behind(depth, bracket_of(item));
        }
    }
    extents.push_reserved(between(start, inside.len()));
}

// Whether the arguments are parted at a token.
fn is_parting(item: TagRef<'_, HideSet>, depth: usize, left: usize) -> bool
    ensures { result ≡ (spells (referred_to item.entry).token (codes ",") && depth == 0 && nat_le 1 left) }
{
    item.token.spells(b",") && depth == 0 && left > 0
}

fn between(start: usize, end: usize) -> Extent
    requires { start ≤ end }
    ensures { result ≡ record { start = start; len = end - start } }
{
    Extent {
        start,
        len: end - start,
    }
}
