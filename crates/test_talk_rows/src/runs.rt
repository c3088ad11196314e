// Runs of the whole program, but for those over a net, over objects in memory.
use crate::Fault;
use command_words::{WordsFault, read_words};
use disk_model::MemoryDisk;
use doc_items::Memory;
use std::alloc::Global;
use std::mem::replace;
use test_disk_rows::{
    bytes_of, calls, disk, filled, first_word, halves, number, put, put_digits, text_of, words_of,
};
use wave_outside::{MemoryFolder, MemorySink, MemorySource, StoredFile, TickClock};
use wave_program::{obey, write_usage};

// The files of a folder, each on a disk of its own that reads the same, and one more.
fn one_more(
    alloc: Global,
    folder: &MemoryFolder,
    name: &str,
    disk: MemoryDisk,
) -> Result<MemoryFolder, Memory> {
    let mut files = Vec::new(alloc);
    for file in folder.files() {
        let name = String::from_str(alloc, file.name.as_str())?;
        let disk = file.disk.fork(alloc)?;
        files.push(StoredFile { name, disk })?;
    }
    let name = String::from_str(alloc, name)?;
    files.push(StoredFile { name, disk })?;
    Ok(MemoryFolder::new(alloc, files, Vec::new(alloc)))
}

/// The lines for the next run, and the folder that the runs share.
pub(crate) struct Runs {
    pub(crate) input: Vec<u8>,
    pub(crate) folder: MemoryFolder,
}

impl Drop for Runs {
    fn drop(self) {
        let Runs {
            input: _input,
            folder: _folder,
        } = self;
    }
}

/// A folder without files.
pub(crate) fn no_files(alloc: Global) -> MemoryFolder {
    MemoryFolder::new(alloc, Vec::new(alloc), Vec::new(alloc))
}

/// A folder with one file.
pub(crate) fn one_file(
    alloc: Global,
    name: &str,
    disk: MemoryDisk,
) -> Result<MemoryFolder, Memory> {
    let name = String::from_str(alloc, name)?;
    let mut files = Vec::new(alloc);
    if files.push(StoredFile { name, disk }).is_err() {
        return Err(std::alloc::AllocError);
    }
    Ok(MemoryFolder::new(alloc, files, Vec::new(alloc)))
}

// A clock that always reads 1000, or the one of `clock NEXT STEP`.
fn clock(faults: &str) -> Result<TickClock, Fault> {
    let (what, numbers) = first_word(faults);
    if what != "clock" {
        return Ok(TickClock {
            next: 1000,
            step: 0,
        });
    }
    let (next, step) = first_word(numbers);
    Ok(TickClock {
        next: number(next)?,
        step: number(step)?,
    })
}

fn source(alloc: Global, input: &[u8], faults: &str) -> Result<MemorySource, Fault> {
    let failing = calls(alloc, "reads", faults)?;
    Ok(MemorySource::new(Vec::from_slice(alloc, input)?, failing))
}

fn sink(alloc: Global, faults: &str) -> Result<MemorySink, Fault> {
    let failing = calls(alloc, "writes", faults)?;
    Ok(MemorySink::new(alloc, failing))
}

// A run without a net, with these words, over these objects: its status.
fn obeyed(
    alloc: Global,
    words: &[String],
    source: &mut MemorySource,
    sink: &mut MemorySink,
    folder: &mut MemoryFolder,
    clock: &mut TickClock,
) -> Result<u8, Fault> {
    match read_words(alloc, words) {
        Ok(command) => {
            if command.needs_net() {
                return Err(Fault::BadRow);
            }
            Ok(obey(alloc, command, source, sink, folder, clock))
        }
        Err(WordsFault::Usage) => {
            write_usage(sink);
            Ok(2)
        }
        Err(WordsFault::Memory) => Ok(8),
    }
}

/// A run without a net, with these words, over these lines and this folder: its status, and what it writes into the sink.
fn run_into(
    alloc: Global,
    words: &Vec<String>,
    input: &[u8],
    faults: &str,
    folder: &mut MemoryFolder,
    sink: &mut MemorySink,
) -> Result<u8, Fault> {
    let mut clock = clock(faults)?;
    let mut source = source(alloc, input, faults)?;
    obeyed(
        alloc,
        words.as_slice(),
        &mut source,
        sink,
        folder,
        &mut clock,
    )
}

/// A run whose words and faults a row tells: its status, and what it wrote.
pub(crate) fn outcome(
    alloc: Global,
    words: &str,
    input: &[u8],
    faults: &str,
    folder: &mut MemoryFolder,
) -> Result<(u8, MemorySink), Fault> {
    let words = words_of(alloc, words)?;
    let mut sink = sink(alloc, faults)?;
    let status = run_into(alloc, &words, input, faults, folder, &mut sink)?;
    Ok((status, sink))
}

// Each line that was written, after `< ` on a line of its own.
fn put_written(out: &mut String, bytes: &[u8]) -> Result<(), Fault> {
    for line in text_of(bytes)?.split_terminator('\n') {
        out.push_str("\n< ")?;
        out.push_str(line)?;
    }
    Ok(())
}

// The status, and what was written unless the row wants it not to be shown.
fn put_outcome(
    alloc: Global,
    faults: &str,
    status: u8,
    bytes: &[u8],
    out: &mut String,
) -> Result<(), Fault> {
    let status = format!(in alloc; "{status}")?;
    put(out, status.as_str())?;
    if faults == "silent" {
        return Ok(());
    }
    put_written(out, bytes)
}

fn image_at(
    alloc: Global,
    folder: &MemoryFolder,
    choice: u64,
) -> Result<Option<(String, Vec<u8>)>, Memory> {
    match folder.files().first() {
        Some(file) => {
            let name = file.name.clone()?;
            let bytes = file.disk.image(alloc, choice)?;
            Ok(Some((name, bytes)))
        }
        None => Ok(None),
    }
}

/// The folder that a crash leaves: its first file as the image of a choice.
pub(crate) fn crashed(
    alloc: Global,
    folder: &MemoryFolder,
    choice: u64,
) -> Result<MemoryFolder, Fault> {
    match image_at(alloc, folder, choice)? {
        Some((name, bytes)) => {
            let disk = MemoryDisk::new(alloc, bytes, Vec::new(alloc), None);
            Ok(one_file(alloc, name.as_str(), disk)?)
        }
        None => Ok(no_files(alloc)),
    }
}

impl Runs {
    pub(crate) fn new(alloc: Global) -> Runs {
        Runs {
            input: Vec::new(alloc),
            folder: no_files(alloc),
        }
    }

    /// `> LINE`: a line for the next run.
    pub(crate) fn add_line(&mut self, alloc: Global, line: &str) -> Result<(), Fault> {
        self.add_open(alloc, line)?;
        Ok(self.input.push(b'\n')?)
    }

    /// `>> LINE`: a line for the next run that isn't ended.
    pub(crate) fn add_open(&mut self, alloc: Global, line: &str) -> Result<(), Fault> {
        let line = filled(alloc, line)?;
        Ok(self.input.extend_from_slice(line.as_slice())?)
    }

    /// `run WORDS | FAULTS`: the status of a run over the lines since the last one, and what it writes. The clock always reads 1000. Faults
    /// are `reads N ..` or `writes N ..`, calls that fail; `clock NEXT STEP` is another clock, and `silent` shows the status alone.
    pub(crate) fn run(&mut self, alloc: Global, rest: &str, out: &mut String) -> Result<(), Fault> {
        let (words, faults) = halves(rest);
        let input = replace(&mut self.input, Vec::new(alloc));
        let (status, sink) = outcome(alloc, words, input.as_slice(), faults, &mut self.folder)?;
        put_outcome(alloc, faults, status, sink.bytes(), out)
    }

    /// `counted WORDS | FAULTS`: the status of such a run, and how many bytes it writes.
    pub(crate) fn counted(
        &mut self,
        alloc: Global,
        rest: &str,
        out: &mut String,
    ) -> Result<(), Fault> {
        let (words, faults) = halves(rest);
        let input = replace(&mut self.input, Vec::new(alloc));
        let (status, sink) = outcome(alloc, words, input.as_slice(), faults, &mut self.folder)?;
        let count = sink.bytes().len();
        let told = format!(in alloc; "{status}, {count} bytes")?;
        Ok(put(out, told.as_str())?)
    }

    /// `folder`, or `folder fails N ..` with calls on it that fail: a folder without files.
    pub(crate) fn empty(&mut self, alloc: Global, faults: &str) -> Result<(), Fault> {
        let failing = calls(alloc, "fails", faults)?;
        self.folder = MemoryFolder::new(alloc, Vec::new(alloc), failing);
        Ok(())
    }

    /// `file NAME DIGITS FAULTS`: a folder with this file.
    pub(crate) fn file(&mut self, alloc: Global, rest: &str) -> Result<(), Fault> {
        let (name, rest) = first_word(rest);
        let (digits, faults) = first_word(rest);
        let disk = disk(alloc, bytes_of(alloc, digits)?, faults)?;
        self.folder = one_file(alloc, name, disk)?;
        Ok(())
    }

    /// `beside NAME DIGITS FAULTS`: one more file in the folder.
    pub(crate) fn beside(&mut self, alloc: Global, rest: &str) -> Result<(), Fault> {
        let (name, rest) = first_word(rest);
        let (digits, faults) = first_word(rest);
        let disk = disk(alloc, bytes_of(alloc, digits)?, faults)?;
        self.folder = one_more(alloc, &self.folder, name, disk)?;
        Ok(())
    }

    /// `entered`: the paths that the folder was asked to enter, with `!` where its files were used between the one before and it.
    pub(crate) fn entered(&self, out: &mut String) -> Result<(), Fault> {
        for entered in self.folder.entered() {
            put(out, entered.path.as_str())?;
            if entered.after_use {
                out.push('!')?;
            }
        }
        Ok(())
    }

    /// `files`: the files of the folder, with their bytes.
    pub(crate) fn files(&self, alloc: Global, out: &mut String) -> Result<(), Fault> {
        for file in self.folder.files() {
            put(out, file.name.as_str())?;
            out.push(' ')?;
            let bytes = file.disk.image(alloc, u64::MAX)?;
            put_digits(alloc, out, bytes.as_slice())?;
        }
        Ok(())
    }

    /// `crash N`: the folder is what a crash leaves.
    pub(crate) fn crash(&mut self, alloc: Global, choice: &str) -> Result<(), Fault> {
        self.folder = crashed(alloc, &self.folder, number(choice)?)?;
        Ok(())
    }
}
