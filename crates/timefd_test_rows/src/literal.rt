//! The words of a row, with white space between them: plain words, and literals as Rust writes them.

use crate::fault::RowFault;
use std::alloc::Global;
use std::mem;

/// Where the characters that were read end.
#[derive(Clone, Copy)]
enum State {
    /// Between two words.
    Between,
    /// In a plain word.
    Plain,
    /// In a literal.
    Quoted,
    /// After a backslash.
    Escaped,
    /// After `\x`.
    Byte,
    /// After `\x` and this digit.
    HalfByte(u32),
    /// After `\u`.
    Brace,
    /// After `\u{` and the digits of this number, or no digit.
    Scalar(Option<u32>),
    /// After a literal.
    Closed,
}

/// The greatest byte that `\x` may name in a string literal.
const MOST_BYTE: u32 = 0x7f;

const NO_ESCAPE: RowFault = RowFault::Literal("an escape that isn't one of Rust");

/// The words that were read, and the word that is being read.
#[derive(Drop)]
struct Words {
    all: Vec<String>,
    last: String,
}

impl Words {
    fn end_word(&mut self, alloc: Global) -> Result<State, RowFault> {
        let word = mem::replace(&mut self.last, String::new(alloc));
        self.all.push(word)?;
        Ok(State::Between)
    }

    fn push(&mut self, character: char, state: State) -> Result<State, RowFault> {
        self.last.push(character)?;
        Ok(state)
    }

    fn push_code(&mut self, code: u32) -> Result<State, RowFault> {
        match char::from_u32(code) {
            Some(character) => self.push(character, State::Quoted),
            None => Err(NO_ESCAPE),
        }
    }

    /// Takes one more character, and returns where the characters end then.
    fn step(&mut self, alloc: Global, state: State, character: char) -> Result<State, RowFault> {
        match state {
            State::Between => match character {
                '"' => Ok(State::Quoted),
                ' ' | '\t' => Ok(State::Between),
                other => self.push(other, State::Plain),
            },
            State::Plain => match character {
                ' ' | '\t' => self.end_word(alloc),
                other => self.push(other, State::Plain),
            },
            State::Quoted => match character {
                '"' => Ok(State::Closed),
                '\\' => Ok(State::Escaped),
                other => self.push(other, State::Quoted),
            },
            State::Escaped => self.step_escaped(character),
            State::Byte => Ok(State::HalfByte(digit(character)?)),
            State::HalfByte(high) => {
                let code = with_digit(high, character)?;
                if code > MOST_BYTE {
                    return Err(NO_ESCAPE);
                }
                self.push_code(code)
            }
            State::Brace => match character {
                '{' => Ok(State::Scalar(None)),
                _ => Err(NO_ESCAPE),
            },
            State::Scalar(code) => self.step_scalar(code, character),
            State::Closed => match character {
                ' ' | '\t' => self.end_word(alloc),
                _ => Err(RowFault::Literal("no white space after the last quote")),
            },
        }
    }

    fn step_scalar(&mut self, code: Option<u32>, character: char) -> Result<State, RowFault> {
        match (code, character) {
            (Some(code), '}') => self.push_code(code),
            (Some(code), other) => Ok(State::Scalar(Some(with_digit(code, other)?))),
            (None, other) => Ok(State::Scalar(Some(digit(other)?))),
        }
    }

    fn step_escaped(&mut self, character: char) -> Result<State, RowFault> {
        match character {
            'n' => self.push('\n', State::Quoted),
            'r' => self.push('\r', State::Quoted),
            't' => self.push('\t', State::Quoted),
            '0' => self.push('\0', State::Quoted),
            '\\' | '"' | '\'' => self.push(character, State::Quoted),
            'x' => Ok(State::Byte),
            'u' => Ok(State::Brace),
            _ => Err(NO_ESCAPE),
        }
    }
}

fn digit(character: char) -> Result<u32, RowFault> {
    character.to_digit(16).ok_or(NO_ESCAPE)
}

/// The number with this hexadecimal digit added at its end.
fn with_digit(code: u32, character: char) -> Result<u32, RowFault> {
    let code = code.checked_mul(16).ok_or(NO_ESCAPE)?;
    code.checked_add(digit(character)?).ok_or(NO_ESCAPE)
}

/// The words of a row, each literal as the text that it means.
pub fn words_of(alloc: Global, row: &str) -> Result<Vec<String>, RowFault> {
    let mut words = Words {
        all: Vec::new(alloc),
        last: String::new(alloc),
    };
    let mut state = State::Between;
    for character in row.chars() {
        state = words.step(alloc, state, character)?;
    }
    match state {
        State::Between => Ok(words.all),
        State::Plain | State::Closed => {
            words.end_word(alloc)?;
            Ok(words.all)
        }
        State::Quoted
        | State::Escaped
        | State::Byte
        | State::HalfByte(_)
        | State::Brace
        | State::Scalar(_) => Err(RowFault::Literal("no last quote")),
    }
}
