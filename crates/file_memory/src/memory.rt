// The memory in a file. The lines are held in memory, which is the cache: a load gives what was stored last. A push writes a line to the
// file, and a fence waits until the file has reached the disk. That what was written before `sync_data` returned is there after a power
// failure, and that a line of 64 bytes is written whole or not at all, is what is assumed of the file.
ghost use Rattle.std.specs.Prelude.{◌≡◌, ℕ, ◌+◌, ◌*◌, ◌/◌, ◌<◌, ◌≤◌, None};
ghost use Rattle.file_memory.specs.Files.{lines_of, is_broken, Stands, FileStep};
ghost use Rattle.std.proofs.Common.{rules};

use crate::bytes::line_bytes;
use device::{Coherent, Device};
use std::fs::OpenFile;
use std::io;
use std::io::{Seek, SeekFrom, Write};

// No line begins here, so the next write seeks first.
const NOWHERE: u64 = u64::MAX;

#[derive(Drop)]
pub struct FileMemory<F> {
    file: F,
    // The words of the lines as they were stored last, eight for each line.
    words: Vec<u64>,
    // Where in the file the next write would go, so that lines in a row are written with no seek between them.
    position: u64,
    // What went wrong with the file. From then on nothing is done any more, as if the power had failed.
    trouble: Option<io::Error>,
}

impl<F> FileMemory<F> {
    // The memory over an open file, whose first lines have these words.
    pub fn over(file: F, words: Vec<u64>) -> FileMemory<F>
        ensures { (result.words ≡ words) × (result.trouble ≡ None) }
    {
        FileMemory {
            file,
            words,
            position: NOWHERE,
            trouble: None,
        }
    }

    // What went wrong with the file, if anything did. Whoever uses this memory asks before it answers for what it stored.
    pub fn trouble(&self) -> Option<io::Error>
        ensures { result ≡ self.now.trouble }
    {
        self.trouble
    }
}

impl<F: Write + Seek> FileMemory<F> {
    // Writes one line of the file.
    fn write_line(&mut self, start: u64, bytes: &[u8; 64]) -> io::Result<()>
        ensures words { self.new.words ≡ self.old.words }
        ensures trouble { self.new.trouble ≡ self.old.trouble }
    {
        if self.position != start {
            self.file.seek(SeekFrom::Start(start))?;
        }
        self.file.write_all(bytes)?;
        self.position = start.wrapping_add(64);
        Ok(())
    }
}

impl<F: Write + Seek + OpenFile> Device for FileMemory<F> {
    ghost step = { FileStep };

    ghost size = { lines_of };

    ghost stays = { Prim.search rules };

    fn lines(&self) -> u64 {
        (self.words.len() / 8) as u64
    }

    fn load(&mut self, line: u64, word: u64) -> u64 {
        let place = (line * 8 + word) as usize;
        self.words[place]
    }

    fn store(&mut self, line: u64, word: u64, value: u64) {
        if self.trouble.is_none() {
            self.words[(line * 8 + word) as usize] = value;
        }
    }

    fn push(&mut self, line: u64) {
        if self.trouble.is_none() {
            let bytes = line_bytes(self.words.as_slice(), (line * 8) as usize);
            self.trouble = self.write_line(line.wrapping_mul(64), &bytes).err();
        }
    }

    fn fence(&mut self) {
        if self.trouble.is_none() {
            self.trouble = self.file.sync_data().err();
        }
    }
}

impl<F: Write + Seek + OpenFile> Coherent for FileMemory<F> {
    ghost stands = { Stands };

    ghost stopped = { is_broken };

    ghost coheres = { Prim.search rules };
}
