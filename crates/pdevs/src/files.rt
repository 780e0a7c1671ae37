//! Reads the files that a command line names.

use crate::plans::partition_of_plan;
use crate::told::tell_unread;
use dv_cause::{Source, Texts};
use dv_command::{PartitionChoice, TraceFiles};
use dv_partition::Partition;
use std::fs::OpenFile;
use std::io::{Cursor, ErrorKind, Read, Seek, SeekFrom};
use std::rt::Files;
use std::{fs, io};

/// The word that names standard input.
pub const STANDARD_INPUT: &str = "-";

/// A file that was read.
#[derive(Drop)]
pub struct FileBytes<'a> {
    /// Its name, as messages show it.
    pub name: &'a str,
    /// Its contents.
    pub bytes: Vec<u8>,
}

impl FileBytes<'_> {
    fn source(&self) -> Source<'_> {
        Source {
            name: self.name,
            bytes: &self.bytes,
        }
    }

    /// The texts that may be refused, if this is the model, in one process and without inputs.
    pub fn texts(&self) -> Texts<'_> {
        self.texts_with(None)
    }

    /// The texts that may be refused, if this is the model and it is divided.
    pub fn texts_in<'a>(&'a self, parting: &'a Parting) -> Texts<'a> {
        Texts {
            partition: parting.partition(),
            ..self.texts()
        }
    }

    /// The texts that may be refused, if this is the model, in one process.
    pub fn texts_with<'a>(&'a self, inputs: Option<&'a FileBytes<'a>>) -> Texts<'a> {
        let inputs = match inputs {
            Some(inputs) => inputs.source(),
            None => Source {
                name: "",
                bytes: &[],
            },
        };
        Texts {
            model: self.source(),
            inputs,
            partition: Partition::Count(1),
        }
    }
}

/// A model, a trace of it, and the inputs of the run if they are given.
#[derive(Drop)]
pub struct TraceBytes<'a> {
    /// The model.
    pub model: FileBytes<'a>,
    /// The trace.
    pub trace: FileBytes<'a>,
    /// The inputs of the run, if they are given.
    pub inputs: Option<FileBytes<'a>>,
}

impl TraceBytes<'_> {
    /// The texts that may be refused.
    pub fn texts(&self) -> Texts<'_> {
        self.model.texts_with(self.inputs.as_ref())
    }

    /// The bytes of the inputs, if they are given.
    pub fn input_bytes(&self) -> Option<&[u8]> {
        match &self.inputs {
            Some(inputs) => Some(&inputs.bytes),
            None => None,
        }
    }
}

/// How a model is divided into processes.
#[derive(Drop)]
pub enum Parting {
    /// By the text of a partition.
    Text(Vec<u8>),
    /// Into this number of processes.
    Count(u32),
}

impl Parting {
    /// The partition for `dv_job`.
    pub fn partition(&self) -> Partition<'_> {
        match self {
            Parting::Text(text) => Partition::Json(text.as_slice()),
            Parting::Count(count) => Partition::Count(*count),
        }
    }
}

/// Reads a file piece by piece.
#[derive(Drop)]
pub enum FileReader<F, I> {
    /// A file of the system.
    File(F),
    /// Standard input.
    Input(I),
}

impl<F: Read, I: Read> Read for FileReader<F, I> {
    fn read(&mut self, buf: &mut [u8]) -> io::Result<usize> {
        match self {
            FileReader::File(file) => file.read(buf),
            FileReader::Input(input) => input.read(buf),
        }
    }
}

/// Reads a file piece by piece, any number of times.
#[derive(Drop)]
pub enum SeekableReader<F> {
    /// A regular file of the system.
    File(F),
    /// The bytes of another file, or of standard input, which can be read only once.
    Bytes(Cursor<Vec<u8>>),
}

impl<F: Read> Read for SeekableReader<F> {
    fn read(&mut self, buf: &mut [u8]) -> io::Result<usize> {
        match self {
            SeekableReader::File(file) => file.read(buf),
            SeekableReader::Bytes(bytes) => bytes.read(buf),
        }
    }
}

impl<F: Seek> Seek for SeekableReader<F> {
    fn seek(&mut self, to: SeekFrom) -> io::Result<u64> {
        match self {
            SeekableReader::File(file) => file.seek(to),
            SeekableReader::Bytes(bytes) => bytes.seek(to),
        }
    }
}

/// A file that was opened, at its beginning.
#[derive(Drop)]
pub struct OpenedFile<'a, T> {
    /// Its name, as messages show it.
    pub name: &'a str,
    /// Reads its contents.
    pub reader: T,
}

/// The name of the file that a word names, as messages show it.
fn told_name(word: &str) -> &str {
    if word == STANDARD_INPUT {
        "<stdin>"
    } else {
        word
    }
}

/// The answer of reading the file with a name. `None` if the file can't be read: a message is
/// printed then, with the reason if it is explained.
///
/// # Errors
///
/// An allocation was refused.
fn unless_unread<R: Eprint, T>(
    rt: &R,
    name: &str,
    answer: io::Result<T>,
    is_explained: bool,
) -> io::Result<Option<T>> {
    match answer {
        Ok(made) => Ok(Some(made)),
        Err(error) if matches!(error.kind(), ErrorKind::OutOfMemory) => Err(error),
        Err(error) => {
            tell_unread(rt, name, &error, is_explained);
            Ok(None)
        }
    }
}

/// The bytes of the file that a word names, or of standard input if the word is `-`. `None` if they
/// can't be read: a message is printed then, with the reason if it is explained.
///
/// # Errors
///
/// An allocation was refused.
pub fn read<'a, R: AllocGlobal + Files + Input + Eprint>(
    rt: &R,
    word: &'a str,
    is_explained: bool,
) -> io::Result<Option<FileBytes<'a>>> {
    let bytes = if word == STANDARD_INPUT {
        standard_input(rt)
    } else {
        fs::read(rt, word)
    };
    let name = told_name(word);
    match unless_unread(rt, name, bytes, is_explained)? {
        Some(bytes) => Ok(Some(FileBytes { name, bytes })),
        None => Ok(None),
    }
}

/// Opens the file that a word names, or standard input if the word is `-`, to be read piece by
/// piece. `None` if it can't be opened: a message is printed then, with the reason if it is
/// explained.
///
/// # Errors
///
/// An allocation was refused.
pub fn open<'a, R: Files + Input + Eprint>(
    rt: &R,
    word: &'a str,
    is_explained: bool,
) -> io::Result<Option<OpenedFile<'a, FileReader<R::File, R::Reader>>>> {
    let reader = if word == STANDARD_INPUT {
        Ok(FileReader::Input(rt.reader()))
    } else {
        open_file(rt, word)
    };
    opened(rt, word, reader, is_explained)
}

/// Opens a file as `open` does, to be read any number of times. What is no regular file, such as a
/// pipe, may give its bytes only once, so all of them are read and kept. `None` also if that fails.
///
/// # Errors
///
/// An allocation was refused.
pub fn open_seekable<'a, R: AllocGlobal + Files + Input + Eprint>(
    rt: &R,
    word: &'a str,
    is_explained: bool,
) -> io::Result<Option<OpenedFile<'a, SeekableReader<R::File>>>> {
    let reader = if word == STANDARD_INPUT {
        kept_input(rt)
    } else {
        open_or_keep(rt, word)
    };
    opened(rt, word, reader, is_explained)
}

/// The file that a word names, with the answer of opening it. `None` if it can't be opened, as for
/// `open`.
///
/// # Errors
///
/// An allocation was refused.
fn opened<'a, R: Eprint, T>(
    rt: &R,
    word: &'a str,
    reader: io::Result<T>,
    is_explained: bool,
) -> io::Result<Option<OpenedFile<'a, T>>> {
    let name = told_name(word);
    match unless_unread(rt, name, reader, is_explained)? {
        Some(reader) => Ok(Some(OpenedFile { name, reader })),
        None => Ok(None),
    }
}

/// Opens a regular file, or reads the bytes of another one.
fn open_or_keep<R: AllocGlobal + Files>(rt: &R, name: &str) -> io::Result<SeekableReader<R::File>> {
    let mut file = fs::open(rt, name)?;
    if file.metadata()?.is_file() {
        return Ok(SeekableReader::File(file));
    }
    let mut bytes = Vec::new(rt.alloc());
    file.read_to_end(&mut bytes)?;
    Ok(SeekableReader::Bytes(Cursor::new(bytes)))
}

/// Reads all of standard input, and keeps it.
fn kept_input<R: AllocGlobal + Input, F>(rt: &R) -> io::Result<SeekableReader<F>> {
    Ok(SeekableReader::Bytes(Cursor::new(standard_input(rt)?)))
}

/// Opens a file of the system.
fn open_file<R: Files, I>(rt: &R, name: &str) -> io::Result<FileReader<R::File, I>> {
    Ok(FileReader::File(fs::open(rt, name)?))
}

/// All of standard input.
fn standard_input<R: AllocGlobal + Input>(rt: &R) -> io::Result<Vec<u8>> {
    let mut bytes = Vec::new(rt.alloc());
    let mut reader = rt.reader();
    reader.read_to_end(&mut bytes)?;
    Ok(bytes)
}

/// Reads the file of the inputs, if one is given. `None` if it can't be read, as for `read`.
///
/// # Errors
///
/// An allocation was refused.
pub fn read_inputs<'a, R: AllocGlobal + Files + Input + Eprint>(
    rt: &R,
    inputs: Option<&'a String>,
    is_explained: bool,
) -> io::Result<Option<Option<FileBytes<'a>>>> {
    match inputs {
        Some(name) => match read(rt, name.as_str(), is_explained)? {
            Some(inputs) => Ok(Some(Some(inputs))),
            None => Ok(None),
        },
        None => Ok(Some(None)),
    }
}

/// Reads a model, a trace and inputs, in this order. `None` if one of them can't be read, as for
/// `read`.
///
/// # Errors
///
/// An allocation was refused.
pub fn read_trace<'a, R: AllocGlobal + Files + Input + Eprint>(
    rt: &R,
    files: &'a TraceFiles,
    inputs: Option<&'a String>,
) -> io::Result<Option<TraceBytes<'a>>> {
    let Some(model) = read(rt, files.model.as_str(), files.explained)? else {
        return Ok(None);
    };
    let Some(trace) = read(rt, files.trace.as_str(), files.explained)? else {
        return Ok(None);
    };
    let Some(inputs) = read_inputs(rt, inputs, files.explained)? else {
        return Ok(None);
    };
    Ok(Some(TraceBytes {
        model,
        trace,
        inputs,
    }))
}

/// How a model is divided: into one process if nothing is chosen. A file with a plan is turned into
/// the partition of that plan. `None` if the file can't be read, as for `read`.
///
/// # Errors
///
/// An allocation was refused.
pub fn read_parting<R: AllocGlobal + Files + Input + Eprint>(
    rt: &R,
    choice: Option<&PartitionChoice>,
    is_explained: bool,
) -> io::Result<Option<Parting>> {
    match choice {
        Some(PartitionChoice::File(name)) => match read(rt, name.as_str(), is_explained)? {
            Some(FileBytes { name: _, bytes }) => {
                let planned = partition_of_plan(rt.alloc(), &bytes)?;
                Ok(Some(Parting::Text(planned.unwrap_or(bytes))))
            }
            None => Ok(None),
        },
        Some(PartitionChoice::Count(count)) => Ok(Some(Parting::Count(*count))),
        None => Ok(Some(Parting::Count(1))),
    }
}
