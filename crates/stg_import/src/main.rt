//! `stg_import FILE level D percentage`: writes the record that import makes of the file's graph (S14.9) to standard
//! output. Its exit status is always 0: what it can't do is one line on standard error, and then standard output
//! stays empty.
#![tactic(auto)]

ghost use Rattle.std.specs.Prelude.{◌+◌, ◌*◌, ◌≤◌, length};

use graph_text::text::{BadFormat, Numerals};
use importer::import::{import, record_length};
use importer::terms::Terms;
use input::{has_word, read_full};
use sheet::refusal::Refusal;
use std::env::{Env, FillError};
use std::fs::{File, Files};
use std::io::Read;
use std::{fmt, io};

/// The bytes of a word of the command line that is read.
const WORD: usize = 4096;

/// The bytes of a file that is read. It has a fixed buffer, as its words have: what an import needs is then there from
/// the start, and the lack of memory is no failure of its own.
const FILE: usize = 65536;

/// What the program can't do.
#[derive(Drop)]
enum Failure<'a> {
    /// There are not four words behind the program's name.
    Usage,
    /// A word that has to be a number is none.
    NoNumber(&'a str),
    /// The file's name can't be read.
    NoName(FillError),
    /// The file's name is no text.
    NoText,
    /// A call on the file failed.
    File(&'a str, SystemError),
    /// The file has too many bytes.
    LongFile,
    /// Refusal 17, of the terms.
    BadTerms,
    /// Import refused.
    Refused(Refusal),
    /// Standard output took no record.
    NotWritten,
}

impl fmt::Display for Failure<'_> {
    fn fmt<W: fmt::Write>(&self, f: &mut fmt::Formatter<W>) -> fmt::Result {
        match self {
            Failure::Usage => write!(f, "usage: stg_import FILE level D percentage"),
            Failure::NoNumber(word) => write!(f, "{word}: expected a number from 0 to 65535"),
            Failure::NoName(FillError::TooLong) => write!(f, "FILE: File name too long"),
            Failure::NoName(FillError::NotPresent) => write!(f, "FILE: Invalid argument"),
            Failure::NoText => write!(f, "FILE: expected a name in UTF-8"),
            Failure::File(path, error) => write!(f, "{path}: {error}"),
            Failure::LongFile => write!(f, "expected a file of at most 65536 bytes"),
            Failure::BadTerms => write!(
                f,
                "refused 17: expected level 0 (low) or 1 (high), and a percentage from 100 to 400, of a low task 100"
            ),
            Failure::Refused(Refusal::BadText) => write!(
                f,
                "refused 17: the file is {}",
                BadFormat
            ),
            Failure::Refused(refusal) => write!(f, "refused {}: {}", refusal.number(), *refusal),
            Failure::NotWritten => write!(f, "the record could not be written"),
        }
    }
}

impl From<FillError> for Failure<'_> {
    fn from(error: FillError) -> Self {
        Failure::NoName(error)
    }
}

impl From<Refusal> for Failure<'_> {
    fn from(refusal: Refusal) -> Self {
        Failure::Refused(refusal)
    }
}

/// What the system says of a file, or its error where no memory was left for the words.
#[derive(Drop)]
struct SystemError(Result<String, io::Error>);

impl SystemError {
    /// The words of an error.
    fn new(rt: &impl AllocGlobal, error: io::Error) -> SystemError {
        SystemError(format!(in rt.alloc(); "{error}").map_err(|_| error))
    }
}

impl fmt::Display for SystemError {
    fn fmt<W: fmt::Write>(&self, f: &mut fmt::Formatter<W>) -> fmt::Result {
        match &self.0 {
            Ok(words) => write!(f, "{}", without_number(words.as_str())),
            Err(error) => write!(f, "{error}"),
        }
    }
}

/// What an error says, without the number that std writes behind it.
fn without_number(words: &str) -> &str {
    words
        .split_once(" (os error ")
        .map_or(words, |(front, _)| front)
}

/// A word as a decimal number from 0 to 65,535.
fn number_of(word: &[u8]) -> Result<u32, BadFormat> {
    let mut numerals = Numerals::new(word);
    let value = numerals.take()?;
    if numerals.is_empty() {
        Ok(u32::from(value))
    } else {
        Err(BadFormat)
    }
}

/// Word i of the command line, of this name, as a decimal number from 0 to 65,535.
fn number_at<'a>(rt: &impl Env, i: usize, name: &'a str) -> Result<u32, Failure<'a>> {
    let mut word = [0; WORD];
    let n = rt.arg(i, &mut word).map_err(|_| Failure::NoNumber(name))?;
    number_of(&word[..n]).map_err(|_| Failure::NoNumber(name))
}

/// The three numbers behind the file's name.
fn terms_asked(rt: &impl Env) -> Result<Terms, Failure<'static>> {
    Ok(Terms {
        level: number_at(rt, 2, "level")?,
        deadline: number_at(rt, 3, "D")?,
        percentage: number_at(rt, 4, "percentage")?,
    })
}

/// Writes the record at the front of some bytes to standard output.
fn put_record(rt: &impl Print, bytes: &[u8]) -> Result<(), Failure<'static>>
    requires { 12 + 4 * 255 ≤ length bytes.now }
{
    let n = record_length(u16::from(bytes[1]));
    rt.write_all(&bytes[..n]).map_err(|_| Failure::NotWritten)
}

/// Imports a text of at most 65,536 bytes. An entry takes at least 6 of them, so the buffer has room for any graph
/// that stands in it. Of refusal 17 the terms are named where they are at fault, else the text.
fn import_text(rt: &impl Print, text: &[u8], t: Terms) -> Result<(), Failure<'static>> {
    if !t.is_lawful() {
        return Err(Failure::BadTerms);
    }
    let mut bytes = [0; FILE];
    import(text, t, &mut bytes)?;
    put_record(rt, &bytes)
}

/// Whether nothing more can be read.
fn at_end<'a, F: Read>(
    rt: &impl AllocGlobal,
    file: &mut F,
    path: &'a str,
) -> Result<(), Failure<'a>> {
    let read = file
        .read(&mut [0; 1])
        .map_err(|error| Failure::File(path, SystemError::new(rt, error)))?;
    if read == 0 {
        Ok(())
    } else {
        Err(Failure::LongFile)
    }
}

/// Imports what stands in an open file.
/// No struct holds `rt` and the path: each function takes of `rt` just what it uses.
fn import_from<'a, F: Read>(
    rt: &(impl Print + AllocGlobal),
    file: &mut F,
    path: &'a str,
    t: Terms,
) -> Result<(), Failure<'a>> {
    let mut text = [0; FILE];
    let n = read_full(file, &mut text);
    at_end(rt, file, path)?;
    import_text(rt, &text[..n], t)
}

/// Imports the file of this name.
fn import_named<'a>(
    rt: &(impl Files + Print + AllocGlobal),
    path: &'a str,
    t: Terms,
) -> Result<(), Failure<'a>> {
    let mut file = File::open(rt, path).map_err(|error| Failure::File(
        path,
        SystemError::new(rt, error),
    ))?;
    import_from(rt, &mut file, path, t)
}

/// Imports as the command line asks; the file's name is read into `word`.
fn import_asked<'a>(
    rt: &(impl Files + Env + Print + AllocGlobal),
    word: &'a mut [u8],
) -> Result<(), Failure<'a>> {
    if !has_word(rt, 4) || has_word(rt, 5) {
        return Err(Failure::Usage);
    }
    let t = terms_asked(rt)?;
    let n = rt.arg(1, word)?;
    let path = str::from_utf8(&word[..n]).map_err(|_| Failure::NoText)?;
    import_named(rt, path, t)
}

/// Imports, or says what can't be done.
fn main(rt: HostRuntime) {
    let mut word = [0; WORD];
    if let Err(failure) = import_asked(&rt, &mut word) {
        let _ = eprintln!(rt; "stg_import: {failure}");
    }
}
