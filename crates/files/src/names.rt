// The names of files. They are bytes to the programs and to the system, and text to the library between them.
ghost use Rattle.std.specs.Prelude.{◌≡◌, IfErr};
ghost use Rattle.std.specs.IoError.{raw_os_error};
ghost use Rattle.std.specs.declared.option.Option.TheVariants.{None};

use std::fs::{File, OpenOptions};
use std::os::unix::fs::OpenOptionsExt;
use std::path::PathBuf;
use std::{fs, io};

// Who may read and write a new file: the one who made it.
const OWNER_ONLY: u32 = 0o600;

// A name as text.
fn text(name: &[u8]) -> io::Result<&str>
    ensures { IfErr result (λ e. raw_os_error e ≡ None) }
{
    str::from_utf8(name).map_err(|_| io::Error::new(
        io::ErrorKind::InvalidFilename,
        "the name is no UTF-8 text",
    ))
}

// A file to be read. This and the functions below differ in the function of std that they call: one that took it as a closure would be no shorter.
pub fn open(rt: &HostRuntime, name: &[u8]) -> io::Result<File> {
    File::open(rt, text(name)?)
}

// A file that was not there before, to be written.
pub fn create_new(rt: &HostRuntime, name: &[u8]) -> io::Result<File> {
    OpenOptions::new()
        .write(true)
        .create_new(true)
        .mode(OWNER_ONLY)
        .open(rt, text(name)?)
}

pub fn rename(rt: &HostRuntime, from: &[u8], to: &[u8]) -> io::Result<()> {
    fs::rename(rt, text(from)?, text(to)?)
}

pub fn remove(rt: &HostRuntime, name: &[u8]) -> io::Result<()> {
    fs::remove_file(rt, text(name)?)
}

// Where a link leads, and nothing where the system says that the name is no link. The text of a link is allocated, and an error says
// that there was no memory for it, or that it is no UTF-8 text.
pub fn read_link(rt: &HostRuntime, name: &[u8]) -> io::Result<Option<PathBuf>>
    ensures { IfErr result (λ e. raw_os_error e ≡ None) }
{
    match fs::read_link(rt, text(name)?) {
        Ok(led) => Ok(Some(led)),
        Err(e) if e.raw_os_error().is_some() => Ok(None),
        Err(e) => Err(e),
    }
}
