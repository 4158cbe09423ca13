// The operator ##.
ghost use Rattle.std.specs.Prelude.{◌≡◌, ℕ, true, false, List, [], ◌∷◌, ◌++◌, is_some, is_ok, IfErr, if◌then◌else◌, Some, None};
ghost use Rattle.std.specs.Option.{option_map};
ghost use Rattle.text.specs.declared.FaultKind.TheVariants.{BadJoin};
ghost use Rattle.item.specs.Tables.{held, referred_to};
ghost use Rattle.item.specs.Tagged.{fit};
ghost use Rattle.definition.specs.Definitions.{Macro};
ghost use Rattle.replacement.specs.Items.{giving, fault, shared};
ghost use Rattle.replacement.specs.Joining.{join_all};
ghost use Rattle.replacement.specs.Meaning.{item_of, items_of, hidden};
ghost use Rattle.token.specs.Tables.{referred};
ghost use Rattle.lexer.specs.Cutting.{one_token};
ghost use Rattle.operators.specs.Ends.{joined_end};
ghost use Rattle.operators.specs.Pieces.{pieces_of, operand_of};
ghost use Rattle.operators.specs.Spellings.{spelt};

use crate::Role;
use crate::hides::Hides;
use crate::spelling::Spelling;
use item::{HideSet, TagRef, TagTable};
use lexer::one_token;
use text::FaultKind;
use token::{Kind, TokenRef};

// Each ## joins its neighbours, from the left, and the tokens that are left go to `joined`; refused where two do not
// make one token.
pub(crate) fn join_all(
    pieces: &TagTable<Role>,
    line: u32,
    spelling: &mut Spelling,
    joined: &mut TagTable<HideSet>,
) -> Result<(), FaultKind>
    ensures whole { (ms : List Macro) (left : ℕ) → is_ok result ≡ true → join_all line left None (pieces_of ms (held pieces.now)) ≡ giving (items_of ms (held joined.new)) left }
    ensures failed { (ms : List Macro) (left : ℕ) → is_ok result ≡ false → (join_all line left None (pieces_of ms (held pieces.now))).ending ≡ fault 53 line }
    ensures fault { IfErr result (λ f. f ≡ BadJoin) }
{
    joined.clear();
    let mut parts = pieces.view();
    // Whether there is a left operand: the last token of `joined`.
    let mut operand = false;
    while let Some(part) = parts.next() {
        match part.tag {
            Role::Plain(hides) => {
                joined.push(TagRef {
                    token: part.token,
                    tag: hides,
                })?;
                operand = true;
            }
            Role::Nothing => operand = false,
            Role::Join => {
                let Some(next) = parts.next() else {
                    return Ok(());
                };
                if let Some(right) = operand_of(next) {
                    join_next(operand, right, line, spelling, joined)?;
                    operand = true;
                }
            }
        }
    }
    Ok(())
}

// The token that a piece is as an operand of ##, none for a placemarker.
fn operand_of(part: TagRef<'_, Role>) -> Option<TagRef<'_, HideSet>>
    ensures { option_map referred_to result ≡ operand_of (referred_to part.entry) }
{
    match part.tag {
        Role::Plain(_) | Role::Join => Some(TagRef {
            token: part.token,
            tag: part.tag.hides(),
        }),
        Role::Nothing => None,
    }
}

// Joins the last token, where it is an operand, and the one on the right; refused where they do not make one token.
fn join_next(
    operand: bool,
    right: TagRef<'_, HideSet>,
    line: u32,
    spelling: &mut Spelling,
    joined: &mut TagTable<HideSet>,
) -> Result<(), FaultKind>
    requires { fit (held joined.old ++ referred_to right ∷ []) ≡ true }
    ensures ending { (ms : List Macro) → (if is_ok result then Some (items_of ms (held joined.new)) else None) ≡ joined_end line operand (items_of ms (held joined.old)) (item_of ms (referred_to right.entry)) }
    ensures fault { IfErr result (λ f. f ≡ BadJoin) }
{
    if operand && let Some(left) = joined.last() {
        let kind = spell(left.token, right.token, spelling).ok_or(FaultKind::BadJoin)?;
        let marked = left.token.marked;
        let hides = left.tag;
        joined.pop();
        let token = TokenRef {
            kind,
            spelling: spelling.bytes(),
            line,
            marked,
        };
        joined.push(sharing(token, hides, right.tag))?;
    } else {
        joined.push(right)?;
    }
    Ok(())
}

// The spellings of two tokens one behind the other, and the kind where they make one token.
fn spell(left: TokenRef<'_>, right: TokenRef<'_>, spelling: &mut Spelling) -> Option<Kind>
    ensures kind { result ≡ one_token (left.entry.spelling.now ++ right.entry.spelling.now) }
    ensures spelt { is_some result ≡ true → spelt spelling.new ≡ left.entry.spelling.now ++ right.entry.spelling.now }
{
    spelling.clear();
    spelling.add(left.spelling).ok()?;
    spelling.add(right.spelling).ok()?;
    one_token(spelling.bytes())
}

// A token that hides what both of two sets hide.
fn sharing(token: TokenRef<'_>, left: HideSet, right: HideSet) -> TagRef<'_, HideSet>
    ensures { (ms : List Macro) → item_of ms (referred_to result) ≡ record { token = referred token.entry; hides = shared (hidden ms left) (hidden ms right) } }
{
    TagRef {
        token,
        tag: left.shared(right),
    }
}
