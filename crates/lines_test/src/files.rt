// The memory in a file, in a folder of its own.
use crate::steps::{load, push, store};
use anyhow::{bail, ensure};
use device::Device;
use file_memory::FileMemory;
use file_memory::open::{OpenError, open};
use std::fs::{Metadata, OpenFile, OpenOptions};
use std::io::{Seek, SeekFrom, Write};
use std::{fs, io, process};

// A file that takes so many writes and syncs, and then none.
#[derive(Drop)]
struct Faulty {
    left: u32,
}

impl Write for Faulty {
    fn write(&mut self, buf: &[u8]) -> io::Result<usize> {
        if self.left == 0 {
            return Err(io::Error::other("the disk is gone"));
        }
        self.left -= 1;
        Ok(buf.len())
    }

    fn flush(&mut self) -> io::Result<()> {
        Ok(())
    }
}

impl Seek for Faulty {
    fn seek(&mut self, _to: SeekFrom) -> io::Result<u64> {
        Ok(0)
    }
}

impl OpenFile for Faulty {
    fn metadata(&self) -> io::Result<Metadata> {
        Ok(Metadata::of_file(0))
    }

    fn set_len(&self, _size: u64) -> io::Result<()> {
        Ok(())
    }

    fn sync_all(&self) -> io::Result<()> {
        Ok(())
    }

    fn sync_data(&self) -> io::Result<()> {
        if self.left == 0 {
            return Err(io::Error::other("the disk is gone"));
        }
        Ok(())
    }
}

// The file is made, and a few words are written.
fn written(rt: &HostRuntime, path: &str) -> anyhow::Result<()> {
    let mut memory = open(rt, rt.alloc(), path)?;
    ensure!(memory.lines() == 32_768, "a new file has the fewest lines");
    ensure!(load(&mut memory, 0, 0) == 0, "a new file has zeros");
    store(&mut memory, 7, 3, 0x0102_0304_0506_0708);
    store(&mut memory, 8, 0, 8);
    store(&mut memory, 32_767, 7, 5);
    store(&mut memory, 9, 0, 9);
    push(&mut memory, 7);
    push(&mut memory, 8);
    push(&mut memory, 32_767);
    memory.fence();
    ensure!(
        memory.trouble().is_none(),
        "there was trouble with the file"
    );
    Ok(())
}

// It is opened again: what was pushed and fenced is there.
fn read_again(rt: &HostRuntime, path: &str) -> anyhow::Result<()> {
    let mut memory = open(rt, rt.alloc(), path)?;
    ensure!(
        load(&mut memory, 7, 3) == 0x0102_0304_0506_0708,
        "a word of line 7 is lost"
    );
    ensure!(load(&mut memory, 8, 0) == 8, "a word of line 8 is lost");
    ensure!(
        load(&mut memory, 32_767, 7) == 5,
        "a word of the last line is lost"
    );
    ensure!(
        load(&mut memory, 9, 0) == 0,
        "a word was written with no push"
    );
    rt.println("written, closed and opened again: the same words")?;
    Ok(())
}

fn high_first(rt: &HostRuntime, path: &str) -> anyhow::Result<()> {
    let bytes = fs::read(rt, path)?;
    ensure!(bytes.len() == 2_097_152, "the file has another length");
    ensure!(
        bytes.get(472).copied() == Some(1),
        "the high byte does not come first"
    );
    ensure!(
        bytes.get(479).copied() == Some(8),
        "the low byte does not come last"
    );
    rt.println("in the file the high byte comes first")?;
    Ok(())
}

// A file of so many bytes, of which none is changed by an attempt to open it.
fn refused(rt: &HostRuntime, path: &str, length: u64) -> anyhow::Result<()> {
    {
        let file = OpenOptions::new()
            .write(true)
            .create(true)
            .truncate(true)
            .open(rt, path)?;
        file.set_len(length)?;
    }
    match open(rt, rt.alloc(), path) {
        Ok(_) => bail!("a file of a wrong length was opened"),
        Err(e) => rt.println(e)?,
    }
    ensure!(
        fs::metadata(rt, path)?.len() == length,
        "the file was changed"
    );
    Ok(())
}

fn not_opened(rt: &HostRuntime, path: &str, what: &str) -> anyhow::Result<()> {
    match open(rt, rt.alloc(), path) {
        Err(OpenError::NotOpened(_)) => rt.println(what)?,
        _ => bail!("a file was opened that cannot be written"),
    }
    Ok(())
}

// After an error of the file nothing is stored any more, and the error is kept.
fn broken(rt: &HostRuntime) -> anyhow::Result<()> {
    let words = vec![in rt.alloc(); 0u64; 64]?;
    let mut memory = FileMemory::over(Faulty { left: 2 }, words);
    store(&mut memory, 1, 0, 1);
    push(&mut memory, 1);
    push(&mut memory, 2);
    ensure!(memory.trouble().is_none(), "trouble came too soon");
    push(&mut memory, 3);
    ensure!(
        memory.trouble().is_some(),
        "an error of a write is forgotten"
    );
    store(&mut memory, 1, 0, 2);
    ensure!(
        load(&mut memory, 1, 0) == 1,
        "something was stored after an error"
    );
    let more = vec![in rt.alloc(); 0u64; 64]?;
    let mut other = FileMemory::over(Faulty { left: 0 }, more);
    other.fence();
    ensure!(other.trouble().is_some(), "an error of a sync is forgotten");
    rt.println("an error of the file is kept, and nothing is done after it")?;
    Ok(())
}

fn in_folder(rt: &HostRuntime, folder: &str) -> anyhow::Result<()> {
    let path = format!(in rt.alloc(); "{folder}/lines")?;
    let missing = format!(in rt.alloc(); "{folder}/no/lines")?;
    written(rt, path.as_str())?;
    read_again(rt, path.as_str())?;
    high_first(rt, path.as_str())?;
    refused(rt, path.as_str(), 2_097_152 - 64)?;
    refused(rt, path.as_str(), 2_097_153)?;
    refused(rt, path.as_str(), 0)?;
    not_opened(rt, folder, "a folder is not opened")?;
    // The file of a program that runs cannot be opened for writing, not even by root.
    not_opened(
        rt,
        "/proc/self/exe",
        "a file that cannot be written is not opened",
    )?;
    match open(rt, rt.alloc(), missing.as_str()) {
        Err(OpenError::NotMade(_)) => rt.println(
            "a file in a folder that is not there is not made",
        )?,
        _ => bail!("a file was made where no folder is"),
    }
    broken(rt)
}

pub fn all(rt: &HostRuntime) -> anyhow::Result<()> {
    let id = process::id(rt.process());
    let folder = format!(in rt.alloc(); "/tmp/lines_test.{id}")?;
    fs::create_dir(rt, folder.as_str())?;
    let result = in_folder(rt, folder.as_str());
    fs::remove_dir_all(rt, folder.as_str())?;
    result
}
