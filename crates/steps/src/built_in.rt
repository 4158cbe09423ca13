// What built-in names stand for.
ghost use Rattle.std.specs.Prelude.{◌≡◌, ◌+◌, ◌%◌, ◌≤◌, [], ◌++◌, length, decimal};
ghost use Rattle.operators.specs.Spellings.{spelt};
ghost use Rattle.replacement.specs.Replacing.{digits};
ghost use Rattle.steps.specs.Contexts.{file_of};
ghost use Rattle.steps.specs.Handing.{quoted_file, built_in_spelling};

use crate::class::BuiltIn;
use crate::context::Context;
use operators::Spelling;

// Makes the spelling that a built-in name stands for on a line.
pub(crate) fn write_built_in(
    built_in: BuiltIn,
    line: u32,
    context: Context<'_>,
    spelling: &mut Spelling,
)
    ensures { spelt spelling.new ≡ built_in_spelling (file_of context.entry) line built_in }
{
    spelling.clear();
    match built_in {
        BuiltIn::Line => write_digits(line, spelling),
        BuiltIn::File => write_file(context, spelling),
        BuiltIn::Standard => add(spelling, b"1"),
        BuiltIn::Version => add(spelling, b"199901L"),
    }
}

// What is added always fits.
fn add(spelling: &mut Spelling, more: &[u8])
    requires { length (spelt spelling.old) + length more.now ≤ 1023 }
    ensures { spelt spelling.new ≡ (spelt spelling.old ++ more.now) }
{
    let _fits = spelling.add(more);
}

fn write_file(context: Context<'_>, spelling: &mut Spelling)
    requires { spelt spelling.old ≡ [] }
    ensures { spelt spelling.new ≡ quoted_file (file_of context.entry) }
{
    add(spelling, b"\"");
    add(spelling, context.file);
    add(spelling, b"\"");
}

fn write_digits(number: u32, spelling: &mut Spelling)
    requires { spelt spelling.old ≡ [] }
    ensures { spelt spelling.new ≡ digits 10 number [] }
{
    add_digits(number, spelling);
}

// The digits of a number, behind what was written before.
fn add_digits(number: u32, spelling: &mut Spelling)
    requires { length (spelt spelling.old) + length (decimal number) ≤ 1023 }
    ensures { spelt spelling.new ≡ (spelt spelling.old ++ decimal number) }
{
    if number < 10 {
        add(spelling, &[digit(number)]);
    } else {
        add_digits(number / 10, spelling);
        add(spelling, &[digit(number)]);
    }
}

// The last digit of a number.
fn digit(number: u32) -> u8
    ensures { result ≡ 48 + number % 10 }
{
    b'0' + (number % 10) as u8
}
