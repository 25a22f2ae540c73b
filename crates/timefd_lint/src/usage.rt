//! The program's own texts.

/// What `--version` writes.
pub const VERSION: &str = "timefd_lint 0.2.0\n";

/// What `--help` writes.
pub const USAGE: &str = "usage: timefd_lint [OPTION].. [--] [FILE]..

Reads format descriptions, one a line, from the files or from the standard input, and shows which
are wrong, where, why, and what to write instead. The file - is the standard input. In a file
whose name ends in .rs, a source of Rust, they are the string literals in calls of time, chrono and
jiff. With --key they are, in files whose names end in .toml, .json, .yaml or .yml, strings of these
keys. A folder stands for the sources below it, and with --key for those files too, but not for hidden
ones and those that .gitignore files name, or the list exclude in a file .timefd.toml. Without a file,
at a terminal, it is the working directory, unless an option says how lines are read: --language,
--comment, --whole or --source. An option may stand after a file, and = may join it to its value.

  --language LANGUAGE          the language of all lines: 1, 2, 3 (if it isn't given), strftime of time,
                               or python, c, gnu, chrono, jiff, ruby, java, go, moment, whose formats
                               have to be ones that version 3 can write
  --format human|json|short|github|sarif
                               drawn, an object of JSON on a line, FILE:LINE:COLUMN: MESSAGE, an
                               annotation of GitHub, or one log of SARIF 2.1.0
  --color always|never|auto    whether the drawing is coloured; auto asks the terminal
  --comment MARK               skips the lines that begin with the mark
  --key KEY=LANGUAGE           looks at the strings of this key in TOML, JSON and YAML, in any of these
                               languages; may be repeated, or stand under [keys] in a file .timefd.toml
  --whole                      takes a file as one text, each newline in it counted
  --source                     takes a file as a source of Rust, whatever its name
  --explain                    shows each accepted text as its tree
  --explain CODE               alone: says what the error or warning of this code means
  --warn                       reports what is suspect in an accepted text
  --deny CODE                  the same, and a text with this warning counts as refused
  --allow CODE                 the same, but for this warning; both may stand under [levels] in a file
                               .timefd.toml
  --to 2|3                     shows what has to change of lines and literals in a later version
  --normal                     shows what would change in the normal form of version 3
  --fix                        shows what mends refused lines and literals, if that is sure
  --unsafe                     with --fix: also by a guess, as the nearest word
  --write                      with --to, --normal or --fix: writes the named files back so
  --partial                    with --write: also files some of whose lines are refused
  --lsp                        serves an editor on the standard input and output, by the Language
                               Server Protocol, with --key, --warn, --deny, --allow
  --quiet, -q                  leaves out the last line, which says how much was looked at
  --help, -h                   writes this
  --version, -V                writes the program's version
  --                           ends the options

The status is 0 if all is accepted, 1 if a text is refused, 2 if the arguments are wrong, 3 if
memory ran out, 4 if a file can't be read or written, 5 if a line isn't UTF-8.
";
