//! What the program says about itself, and about arguments that it can't use.

ghost use Rattle.std.specs.Prelude.{◌≡◌, IfOk, string_bytes};
ghost use Rattle.timefd_format.specs.Messages as spec;

use crate::asked::CommandLineError;
use crate::word::LanguageOption;
use std::alloc::{AllocError, Global};
use timefd_lint_drawing::shown::safe;

/// What `--version` writes.
pub const VERSION: &str = "timefd_format 0.2.0\n";

/// What `--help` writes.
pub const USAGE: &str = "usage: timefd_format [OPTION].. [--] DESCRIPTION [MOMENT]..
       timefd_format [--quiet] --guess [TEXT]..

Writes each moment by the format description, a line each. Without a moment it reads them from the
standard input, one a line. A moment is a date, with a time of day and an offset where they are
known, as 2026-11-23T05:36:07.25+01:00, which a zone may follow, as [Europe/Berlin]; now is the
moment when the program began, in the zone of TZ, and @1700000000 is that many seconds after 1970
began, in UTC.

  --language LANGUAGE            the language of the descriptions: 1, 2, 3 (if it isn't given),
                                 strftime of time, or python, c, gnu, chrono, jiff, ruby, java,
                                 go, moment, whose formats become version 3
  --read DESCRIPTION             moments are texts of this description
  --to-language LANGUAGE         with --read, the language of DESCRIPTION alone
  --csv COLUMN                   the standard input is comma-separated values, and the moments of
                                 this column are written in their place: its number, counted from
                                 1, or its name in the first line, which is kept then
  --else keep|empty|fail         what is written in place of a moment that can't be: its text or
                                 nothing, or the run ends; else a line is left out, a field kept
  --guess [TEXT]..               writes the descriptions of version 3 that read all the texts and write
                                 them back, likeliest first; without a text those that read all
                                 lines of the standard input
  --zone ZONE                    shows each moment on the clock of this time zone, as Europe/Berlin;
                                 its date, time and offset have to be known
  --quiet, -q                    leaves out warnings: no component in a description, or text that
                                 another language reads as one
  --help, -h                     writes this
  --version, -V                  writes the program's version
  --                             ends the options

The status is 0 if all moments are written, 1 if a description, a moment or a column is refused,
2 if the arguments are wrong, 3 if memory ran out, 4 if a read or a write failed, 5 if a line isn't
UTF-8.
";

/// A sentence that says what is wrong with the arguments. An `Err` says that memory ran out.
pub fn sentence(alloc: Global, error: CommandLineError<'_>) -> Result<String, AllocError>
    ensures { IfOk result (λ text. string_bytes text ≡ spec.option_sentence error.entry) }
{
    match error {
        CommandLineError::Unknown(word) => {
            let word = safe(alloc, word)?;
            format!(in alloc;
                "there is no option `{word}`; --help lists them, and after `--` it is a description"
            )
        }
        CommandLineError::MissingLanguage(option) => {
            let name = option.name();
            format!(in alloc;
                "`{name}` needs a value: one of 1, 2, 3, strftime, python, c, gnu, chrono, \
                jiff, ruby, java, go, moment"
            )
        }
        CommandLineError::MissingRead => {
            String::from_str(alloc, "`--read` needs a value: a description to read by")
        }
        CommandLineError::ReadTwice => String::from_str(alloc, "`--read` is given twice"),
        CommandLineError::NoLanguage(option, word) => no_language(alloc, option, word),
        CommandLineError::MissingColumn => String::from_str(
            alloc,
            "`--csv` needs a value: the number of a column, or its name in the first line",
        ),
        CommandLineError::ColumnTwice => {
            String::from_str(
                alloc,
                "`--csv` is given twice, and one run changes one column",
            )
        }
        CommandLineError::NoColumn => {
            String::from_str(alloc, "`--csv` counts from 1; there is no column 0")
        }
        CommandLineError::MissingOtherwise => {
            String::from_str(alloc, "`--else` needs a value: one of keep, empty, fail")
        }
        CommandLineError::NoOtherwise(word) => {
            let word = safe(alloc, word)?;
            format!(in alloc; "`{word}` isn't a value of `--else`: one of keep, empty, fail")
        }
        CommandLineError::MissingZone => {
            String::from_str(
                alloc,
                "`--zone` needs a value: a time zone, as Europe/Berlin",
            )
        }
        CommandLineError::MomentBesideColumn => String::from_str(
            alloc,
            "`--csv` reads the standard input; no moment follows the description then",
        ),
        CommandLineError::NothingRead => String::from_str(
            alloc,
            "`--to-language` goes with `--read`; without it `--language` names the language",
        ),
        CommandLineError::GuessBeside => String::from_str(
            alloc,
            "`--guess` goes with no option but `--quiet`; it finds a description",
        ),
        CommandLineError::NoDescription => {
            String::from_str(alloc, "there is no description; --help shows the usage")
        }
    }
}

// The sentence for a word that isn't a value of the option.
fn no_language(alloc: Global, option: LanguageOption, word: &str) -> Result<String, AllocError>
    ensures { IfOk result (λ text. string_bytes text ≡ spec.no_language option word.now) }
{
    let word = safe(alloc, word)?;
    match option {
        LanguageOption::Both => {
            format!(in alloc;
                "`{word}` isn't a value of `--language`: one of 1, 2, 3, strftime, python, c, gnu, \
                chrono, jiff, ruby, java, go, moment"
            )
        }
        LanguageOption::Written => {
            format!(in alloc;
                "`{word}` isn't a value of `--to-language`: one of 1, 2, 3, strftime, python, c, \
                gnu, chrono, jiff, ruby, java, go, moment"
            )
        }
    }
}
