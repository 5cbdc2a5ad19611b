use std::fs::{self, File, OpenOptions};
use std::io::{self, IsTerminal, Read, Stdin, Stdout, Write};

/// Keeps the number of a closed standard stream from the files that the program opens, as long as what it returns is there. The
/// stream stays one that cannot be used: one that the program would read can only be written, and one that it would write can
/// only be read.
pub(crate) fn hold_closed(rt: &HostRuntime, stream: &str, is_read: bool) -> Option<File> {
    if fs::metadata(rt, stream).is_ok() {
        return None;
    }
    let mut options = OpenOptions::new();
    options.read(!is_read).write(is_read);
    options.open(rt, "/dev/null").ok()
}

/// The input or the output of a command: a file, or a standard stream.
#[derive(Drop)]
pub enum FileOr<S: Drop> {
    File(File),
    Standard(S),
}

/// The input of a command.
pub type Input = FileOr<Stdin>;

/// The output of a command.
pub type Output = FileOr<Stdout>;

impl Read for FileOr<Stdin> {
    fn read(&mut self, buf: &mut [u8]) -> io::Result<usize> {
        match self {
            FileOr::File(file) => file.read(buf),
            FileOr::Standard(stdin) => stdin.read(buf),
        }
    }
}

impl Write for FileOr<Stdout> {
    fn write(&mut self, buf: &[u8]) -> io::Result<usize> {
        match self {
            FileOr::File(file) => file.write(buf),
            FileOr::Standard(stdout) => stdout.write(buf),
        }
    }

    fn flush(&mut self) -> io::Result<()> {
        match self {
            FileOr::File(file) => file.flush(),
            FileOr::Standard(stdout) => stdout.flush(),
        }
    }
}

// How many bytes are printed at once on a terminal.
const PIECE: usize = 1_024;

/// Standard output for text. On a terminal each control character but the line feed is printed as `?`: a text off the air may hold
/// any, and a terminal obeys some.
#[derive(Drop)]
pub struct TextOutput {
    stdout: Stdout,
    is_terminal: bool,
}

impl TextOutput {
    /// The standard output of the program.
    pub(crate) fn new(rt: &HostRuntime) -> TextOutput {
        let stdout = rt.stdout();
        let is_terminal = stdout.is_terminal();
        TextOutput {
            stdout,
            is_terminal,
        }
    }
}

impl Write for TextOutput {
    fn write(&mut self, buf: &[u8]) -> io::Result<usize> {
        if !self.is_terminal {
            return self.stdout.write(buf);
        }
        let mut shown = [0u8; PIECE];
        let count = buf.len().min(PIECE);
        for place in 0..count {
            let byte = buf[place];
            let is_steering = byte.is_ascii_control() && byte != b'\n';
            shown[place] = if is_steering { b'?' } else { byte };
        }
        self.stdout.write(&shown[..count])
    }

    fn flush(&mut self) -> io::Result<()> {
        self.stdout.flush()
    }
}
