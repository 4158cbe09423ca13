// A run is expanded token by token.
ghost use Rattle.std.specs.Prelude.{◌≡◌, length, vec_len, nat_lt};
ghost use Rattle.item.specs.Tables.{held};

use crate::build::replace;
use crate::level::Level;
use invocation::{Run, fetch_front, front};
use item::{HideSet, TagTable};
use source::Ending;
use std::alloc::{AllocError, Global};
use steps::{Context, Handed, Prepared, hand_on, prepare};
use text::FaultKind;
use token::TokenRef;

const LEVELS: usize = 16;

const MOST_REPLACEMENTS: u32 = 65_536;

// The tables of the run's level and of those below it, the replacements left, and the token handed on last.
#[derive(Drop)]
pub struct Expansion {
    pub(crate) level: Level,
    pub(crate) below: Vec<Level>,
    pub(crate) left: u32,
    pub(crate) handed: TagTable<HideSet>,
    ghost deep: { vec_len below ≡ 16 },
}

impl Expansion {
    ghost use Rattle.std.specs.Prelude.{◌≡◌, [], IfOk};
    ghost use Rattle.std.specs.List.{slice_get};
    ghost use Rattle.std.specs.Option.{option_map};
    ghost use Rattle.token.specs.Tables.{referred};
    ghost use Rattle.replacement.specs.Meaning.{end_of};
    ghost use Rattle.invocation.specs.Fronts.{waiting};
    ghost use Rattle.steps.specs.Contexts.{macros, file_of};
    ghost use Rattle.expansion.specs.States.{state_of, handed_on, Advancing};

    // No replacement has been made.
    pub fn new(heap: Global) -> Result<Expansion, AllocError>
        ensures { IfOk result (λ x. (x.left ≡ 65536) × (waiting x.level.w ≡ []) × (handed_on x ≡ [])) }
    {
        let mut below = Vec::with_capacity(heap, LEVELS)?;
        for _ in 0..LEVELS {
            below.push_reserved(Level::new(heap)?);
        }
        Ok(Expansion {
            level: Level::new(heap)?,
            below,
            left: MOST_REPLACEMENTS,
            handed: TagTable::new(heap)?,
        })
    }

    // The next token of the run's expansion, which `token` then shows; or how the expansion ends, be it by a fault.
    pub fn next<R: Run>(&mut self, context: Context<'_>, run: &mut R) -> Result<(), Ending>
        ensures answer { Advancing (macros context.entry) (file_of context.entry) (end_of (R.Run.end run.old)) (state_of self.old (R.Run.rest run.old)) (state_of self.new (R.Run.rest run.new)) (handed_on self.new) result }
        ensures same { R.Run.end run.new ≡ R.Run.end run.old }
    {
        self.handed.clear();
        loop {
            match prepare(
                context,
                &mut self.level.w,
                run,
                &mut self.level.arguments,
                &mut self.left,
            )? {
                Prepared::End => return Err(run.ending()),
                Prepared::Hand(handed) => {
                    let pushed = hand_on(
                        context,
                        handed,
                        &mut self.level.w,
                        run,
                        &mut self.level.spelling,
                        &mut self.handed,
                    );
                    if pushed.is_err() {
                        let line = line_of(handed, &self.level.w, run);
                        return Err(FaultKind::ManyTokens.at(line).into());
                    }
                    if holds_token(&self.handed) {
                        return Ok(());
                    }
                }
                Prepared::Replace(call) => {
                    self.left = replace(
                        context,
                        call,
                        &mut self.level,
                        self.below.as_mut_slice(),
                        self.left,
                    )?;
                }
            }
        }
    }

    // The token that was handed on last.
    pub fn token(&self) -> Option<TokenRef<'_>>
        ensures { option_map referred result ≡ option_map (λ x. x.token) (slice_get (handed_on self.now) 0) }
    {
        let item = self.handed.view().get(0)?;
        Some(item.token)
    }
}

// Whether a table holds a token.
fn holds_token(table: &TagTable<HideSet>) -> bool
    ensures { result ≡ nat_lt 0 (length (held table.now)) }
{
    table.view().len() > 0
}

// The line of a token that is to be handed on.
fn line_of<R: Run>(handed: Handed, w: &TagTable<HideSet>, run: &mut R) -> u32
    ensures same { R.Run.end run.new ≡ R.Run.end run.old }
{
    match handed {
        Handed::Front => front_line(w, run),
        Handed::Name(_, name) | Handed::BuiltIn(_, name) => name.line,
    }
}

// The line of the next token, which is there: the 0 stands for what cannot happen.
fn front_line<R: Run>(w: &TagTable<HideSet>, run: &mut R) -> u32
    ensures same { R.Run.end run.new ≡ R.Run.end run.old }
{
    fetch_front(w, run);
    match front(w, run) {
        Some(item) => item.token.line,
        None => 0,
    }
}
