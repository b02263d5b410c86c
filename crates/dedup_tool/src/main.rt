//! The program: `dedup_tool IMAGE WORDS`.
//!
//! It reads the command line, opens the disk that IMAGE names, hands the words with the disk and the standard streams to
//! a session, and ends with the session's status, told on standard error in one line. The image is judged before the
//! words. The words say which session it is: one that runs the command file on standard input (`session::run`), or one
//! that runs none (`session::inspect`). What a session does is said there, and `serve` says it again of whatever disk,
//! source and sink: a disk in memory and one in a file are served by the same call. Outside of it are only the streams
//! and the files of the real machine, of which nothing is known but what std says of them.
#![tactic(auto)]

ghost use Rattle.std.specs.Prelude.{◌≡◌, ◌≢◌, ◌≤◌, ◌↔◌, ◌⊎◌, ℕ, map, string_bytes, IfOk, IfErr, None, Some};
ghost use Rattle.disk_model.specs.Crashes.{NothingPending};
ghost use Rattle.pool_model.specs.declared.notes.Session.{Session};
ghost use Rattle.session.specs.Devices.{between, reading};
ghost use Rattle.session.specs.Entries.{IsLawfulSize};
ghost use Rattle.session.specs.Faults.{code_of};
ghost use Rattle.session.specs.Running.{SizedSo};
ghost use Rattle.session.specs.Words.{running_words, looking_words};
ghost use Rattle.session.specs.declared.status.Status.{Status};
ghost use Rattle.session.specs.declared.words.Look.{Look};
ghost use Rattle.session.specs.declared.words.Word.{Word};
ghost use Rattle.dedup_tool.specs.Opened.{AskForNone, IsUsage};
ghost use Rattle.dedup_tool.specs.Serving.{Looked, LookedInMemory, MakesOnly, Ran, RanInMemory, ServedFile, ServedLook};
ghost use Rattle.dedup_tool.specs.declared.asking.Asked.{Asked};
ghost use Rattle.dedup_tool.specs.declared.image.Image.{Image};

mod asking;
mod ending;
mod image;

use asking::{Asked, Unasked, read_words};
use ddt_entry::Sha256Key;
use disk_file::{FileDisk, OpenFault};
use disk_model::{Disk, MemDisk};
use ending::by_memory;
use image::{Image, image_of};
use io_model::{Sink, Source, StdSink, StdSource};
use pool_model::{GroupNotes, Session};
use session::{Status, fault_text, inspect, run};
use std::alloc::Global;
use std::env;
use std::fs::{self, File, Files};
use std::io::{ErrorKind, writer};
use std::process::ExitCode;
use std::rt::Env;

/// The status where the image can't be opened.
const NO_IMAGE: u8 = 12;

/// Says a fault on standard error, and answers its status. A text that can't be written is let go.
fn told(rt: &impl Eprint, text: &str, status: u8) -> u8
    ensures { result ≡ status }
{
    let _ = rt.eprintln(text);
    status
}

/// Says on standard error how a session ended, if it didn't end well and there is memory for the text, and
/// answers the number that the program ends with.
fn ended(rt: &impl Eprint, alloc: Global, status: &Status) -> u8
    ensures { result ≡ code_of status.now }
{
    if *status == Status::Done {
        return status.code();
    }
    match fault_text(alloc, status) {
        Ok(text) => told(rt, text.as_str(), status.code()),
        Err(_) => status.code(),
    }
}

/// Does the session of these words over a disk on which nothing is pending, from this source and to this sink. What the
/// words ask for is done as the session's contract says; other words touch nothing. Where `asked` is one kind of session,
/// the words are none of the other kind.
fn serve<D: Disk, S: Source, W: Sink>(
    alloc: Global,
    asked: Asked,
    words: &[String],
    disk: &mut D,
    input: &mut S,
    out: &mut W,
) -> Status
    requires quiet { NothingPending (D.state disk.old).seen (D.state disk.old).may_leave }
    requires runs { asked ≡ Asked.RunsFile → looking_words (map string_bytes words.now) ≡ None }
    requires looks { asked ≡ Asked.RunsNone → running_words (map string_bytes words.now) ≡ None }
    ensures usage { (result ≡ Status.Usage) ↔ AskForNone (map string_bytes words.now) }
    ensures untouched { result ≡ Status.Usage → (disk.new ≡ disk.old) × (input.new ≡ input.old) × (out.new ≡ out.old) }
    ensures ran { (word : Word) → running_words (map string_bytes words.now) ≡ Some word → (session : Session)
        × Ran (between (D.state disk.old) (D.state disk.new) (W.written out.old) (W.written out.new) (W.faults out.old) (W.faults out.new))
        (reading (S.left input.old) (S.left input.new) (S.faults input.old) (S.faults input.new)) word session result }
    ensures looked { (look : Look) → looking_words (map string_bytes words.now) ≡ Some look
        → Looked (between (D.state disk.old) (D.state disk.new) (W.written out.old) (W.written out.new) (W.faults out.old) (W.faults out.new))
        look result }
    ensures makes { running_words (map string_bytes words.now) ≡ Some Word.Make → MakesOnly (D.state disk.old).sectors result }
    ensures creates { looking_words (map string_bytes words.now) ≡ Some Look.Create → (IsLawfulSize (D.state disk.old).sectors → ⊥)
        → SizedSo result ((disk.new ≡ disk.old) × (out.new ≡ out.old)) }
    ensures unread { (look : Look) → looking_words (map string_bytes words.now) ≡ Some look → input.new ≡ input.old }
    ensures sectors { (D.state disk.new).sectors ≡ (D.state disk.old).sectors }
    ensures writes { (D.state disk.old).write_faults ≤ (D.state disk.new).write_faults }
    ensures sink { W.faults out.old ≤ W.faults out.new }
{
    match asked {
        Asked::RunsNone => inspect(alloc, words, disk, out, &Sha256Key),
        Asked::RunsFile => {
            let mut session = Session {
                groups: GroupNotes::new(alloc),
                sealed: 0,
            };
            run(alloc, words, disk, input, out, &Sha256Key, &mut session)
        }
    }
}

/// Does the session of these words over a disk with the standard streams, and answers how it ended. Want of memory for
/// the words themselves touches the disk as little as words of no session. What the streams gave and took nobody knows.
fn run_words<R: Input + Print, D: Disk>(
    rt: &R,
    alloc: Global,
    words: &[String],
    disk: &mut D,
) -> Status
    requires quiet { NothingPending (D.state disk.old).seen (D.state disk.old).may_leave }
    ensures usage { IsUsage (map string_bytes words.now) result }
    ensures untouched { AskForNone (map string_bytes words.now) → disk.new ≡ disk.old }
    ensures ran { (word : Word) → running_words (map string_bytes words.now) ≡ Some word
        → ((result ≡ Status.OutOfMemory) × (disk.new ≡ disk.old)) ⊎ ServedFile (D.state disk.old) (D.state disk.new) word result }
    ensures looked { (look : Look) → looking_words (map string_bytes words.now) ≡ Some look
        → ((result ≡ Status.OutOfMemory) × (disk.new ≡ disk.old)) ⊎ ServedLook (D.state disk.old) (D.state disk.new) look result }
{
    let asked = match read_words(alloc, words) {
        Ok(asked) => asked,
        Err(Unasked::Usage) => return Status::Usage,
        Err(Unasked::Memory) => return Status::OutOfMemory,
    };
    let mut out = StdSink::new(writer(rt));
    let mut input = StdSource::new(rt.reader());
    serve(alloc, asked, words, disk, &mut input, &mut out)
}

/// Does the session of these words over a new disk in memory of so many sectors. A write fault that came from want of
/// memory is told as such.
fn run_in_memory<R: Input + Print>(
    rt: &R,
    alloc: Global,
    words: &[String],
    sectors: u64,
) -> Result<Status, OpenFault>
    ensures usage { IfOk result (IsUsage (map string_bytes words.now)) }
    ensures unmade { IfErr result (λ fault. fault ≡ OpenFault.Memory) }
    ensures ran { IfOk result (λ status. (word : Word) → running_words (map string_bytes words.now) ≡ Some word
        → (status ≡ Status.OutOfMemory) ⊎ RanInMemory sectors word status) }
    ensures looked { IfOk result (λ status. (look : Look) → looking_words (map string_bytes words.now) ≡ Some look
        → (status ≡ Status.OutOfMemory) ⊎ LookedInMemory sectors look status) }
{
    let Ok(mut disk) = MemDisk::new(alloc, sectors) else {
        return Err(OpenFault::Memory);
    };
    let status = run_words(rt, alloc, words, &mut disk);
    Ok(by_memory(disk.starved(), status))
}

/// Does the session of these words over a disk in a new file of so many sectors. Words of no session leave no file.
fn run_in_new_file<R: Input + Print + Files<File = File>>(
    rt: &R,
    alloc: Global,
    words: &[String],
    path: &str,
    sectors: u64,
) -> Result<Status, OpenFault>
    ensures usage { IfOk result (IsUsage (map string_bytes words.now)) }
{
    let mut disk = FileDisk::make(rt, path, sectors)?;
    let status = run_words(rt, alloc, words, &mut disk);
    if status == Status::Usage {
        let _ = fs::remove_file(rt, path);
    }
    Ok(status)
}

/// Does the session of these words over the disk in the file at this path.
fn run_in_file<R: Input + Print + Files<File = File>>(
    rt: &R,
    alloc: Global,
    words: &[String],
    path: &str,
) -> Result<Status, OpenFault>
    ensures usage { IfOk result (IsUsage (map string_bytes words.now)) }
{
    let mut disk = FileDisk::at_path(rt, path)?;
    Ok(run_words(rt, alloc, words, &mut disk))
}

/// Does the session of these words over the disk that an image names. The error says why there is no such disk: then
/// nothing was read or written.
fn run_on<R: Input + Print + Files<File = File>>(
    rt: &R,
    alloc: Global,
    image: Image<'_>,
    words: &[String],
) -> Result<Status, OpenFault>
    ensures usage { IfOk result (IsUsage (map string_bytes words.now)) }
    ensures unmade { (sectors : ℕ) → image.entry ≡ Image.Memory sectors → IfErr result (λ fault. fault ≡ OpenFault.Memory) }
    ensures ran { (sectors : ℕ) → image.entry ≡ Image.Memory sectors → IfOk result (λ status. (word : Word)
        → running_words (map string_bytes words.now) ≡ Some word → (status ≡ Status.OutOfMemory) ⊎ RanInMemory sectors word status) }
    ensures looked { (sectors : ℕ) → image.entry ≡ Image.Memory sectors → IfOk result (λ status. (look : Look)
        → looking_words (map string_bytes words.now) ≡ Some look → (status ≡ Status.OutOfMemory) ⊎ LookedInMemory sectors look status) }
{
    match image {
        Image::Memory(sectors) => run_in_memory(rt, alloc, words, sectors),
        Image::New(sectors, path) => run_in_new_file(rt, alloc, words, path, sectors),
        Image::Path(path) => run_in_file(rt, alloc, words, path),
    }
}

/// Runs the program on its command line, and answers the status that it ends with.
fn run_command_line<R: Env + Input + Print + Eprint + AllocGlobal + Files<File = File>>(
    rt: &R,
) -> u8 {
    let args = match env::args(rt) {
        Ok(args) => args,
        Err(error) if error.kind() == ErrorKind::OutOfMemory => {
            return told(rt, "out of memory", Status::OutOfMemory.code());
        }
        Err(_) => return told(rt, "usage", Status::Usage.code()),
    };
    let Ok(words) = args.collect::<Vec<String>>(rt.alloc()) else {
        return told(rt, "out of memory", Status::OutOfMemory.code());
    };
    let Some(name) = words.get(1) else {
        return told(rt, "cannot open image", NO_IMAGE);
    };
    let Some(image) = image_of(name.as_str()) else {
        return told(rt, "cannot open image", NO_IMAGE);
    };
    match run_on(rt, rt.alloc(), image, &words[2..]) {
        Ok(status) => ended(rt, rt.alloc(), &status),
        Err(OpenFault::Refused) => told(rt, "cannot open image", NO_IMAGE),
        Err(OpenFault::Memory) => told(rt, "out of memory", Status::OutOfMemory.code()),
    }
}

fn main(rt: HostRuntime) -> ExitCode {
    ExitCode::from(run_command_line(&rt))
}
