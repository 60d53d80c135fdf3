//! The top call.
ghost use Rattle.std.specs.Prelude.{◌≡◌, ◌⊎◌, ◌≤◌, ◌==◌, if◌then◌else◌, IfOk, IfErr, OnOk, []};
ghost use Rattle.shelf.specs.Shelf.{with_file};
ghost use Rattle.router.specs.declared.refusal.Refusal.TheVariants.{Memory as OutOfMemory, Write as Unwritten};
ghost use Rattle.router.specs.Words.{word_texts, command_of, asked_by, IsInRange};
ghost use Rattle.router.specs.Outcomes.{AreHeld};
ghost use Rattle.router.specs.Outputs.{shelf_at, sink_at, with_outputs};
ghost use Rattle.router.specs.Runs.{moment_at, AnswersExactly, RefusesWords, Runs, SaysMemory};
ghost use Rattle.router.specs.Steps.{Ends, EndsRefused, EndsSaid, IsUnput, IsUnputFile, SaysRefusal};

use crate::lines::error_line;
use crate::outputs::{Outputs, make_outputs};
use crate::read::read_design;
use crate::refusal::Refusal;
use crate::words::{Command, read_words};
use rt_base::{Memory, Name};
use shelf::{PutFault, SayFault, Shelf, Sink};
use std::alloc::Global;
use track_graph::Journal;

/// The status of a run of which an output could not be written.
const UNWRITTEN: u8 = 9;

/// The status of want of memory.
const OUT_OF_MEMORY: u8 = 10;

/// How a run ended: with its status, and the journal at the statuses 0, 1 and 9; at all others the
/// journal has no blocks.
#[derive(Debug, Drop)]
pub struct Done {
    pub status: u8,
    pub journal: Journal,
}

/// Says that memory ran out.
fn say_memory<K: Sink>(out: &mut K)
    ensures said { SaysMemory (sink_at K.text K.faults out.old) (sink_at K.text K.faults out.new) }
    ensures count { K.faults out.old ≤ K.faults out.new }
    ensures stays_sure { K.sure out.old → K.sure out.new }
    ensures sure_count { K.sure out.old → K.faults out.new ≡ K.faults out.old }
{
    let _ = out.say(b"error 10 memory\n");
}

/// Says the error line of a refusal, and answers the status: that of the refusal, or want of memory.
fn say_refusal<K: Sink>(alloc: Global, out: &mut K, refusal: &Refusal) -> u8
    ensures said { SaysRefusal (sink_at K.text K.faults out.old) (sink_at K.text K.faults out.new) refusal.now result }
    ensures count { K.faults out.old ≤ K.faults out.new }
    ensures stays_sure { K.sure out.old → K.sure out.new }
    ensures sure_count { K.sure out.old → K.faults out.new ≡ K.faults out.old }
{
    if let Refusal::Memory = refusal {
        say_memory(out);
        return OUT_OF_MEMORY;
    }
    let Ok(line) = error_line(alloc, refusal) else {
        return OUT_OF_MEMORY;
    };
    match out.say(&line) {
        Err(SayFault::Memory) => OUT_OF_MEMORY,
        Err(SayFault::Failed) => refusal.status(),
        Ok(()) => refusal.status(),
    }
}

/// Says the error line of a refusal, and ends the run.
fn refused<K: Sink>(alloc: Global, out: &mut K, refusal: &Refusal) -> Done
    ensures ends { EndsRefused (sink_at K.text K.faults out.old) (sink_at K.text K.faults out.new) refusal.now result }
    ensures count { K.faults out.old ≤ K.faults out.new }
    ensures stays_sure { K.sure out.old → K.sure out.new }
    ensures sure_count { K.sure out.old → K.faults out.new ≡ K.faults out.old }
{
    let status = say_refusal(alloc, out, refusal);
    Done {
        status,
        journal: Journal::new(alloc),
    }
}

/// The refusal of a put under this name.
fn unwritten(alloc: Global, name: &str) -> Refusal
    ensures { (result ≡ OutOfMemory) ⊎ (result ≡ Unwritten name.now) }
{
    match Name::new(alloc, name.as_bytes()) {
        Ok(name) => Refusal::Write { name },
        Err(Memory) => Refusal::Memory,
    }
}

/// Puts bytes under a name.
fn put<F: Shelf>(alloc: Global, files: &mut F, name: &str, bytes: &[u8]) -> Result<(), Refusal>
    ensures ok { OnOk result (F.told files.new ≡ with_file (F.told files.old) name.now bytes.now) }
    ensures err { IfErr result (IsUnputFile (shelf_at F.told F.faults files.old) (shelf_at F.told F.faults files.new) name.now bytes.now) }
    ensures count { F.faults files.old ≤ F.faults files.new }
    ensures stays_sure { F.sure files.old → F.sure files.new }
    ensures sure_count { F.sure files.old → F.faults files.new ≡ F.faults files.old }
{
    match files.put(name, bytes) {
        Ok(()) => Ok(()),
        Err(PutFault::Failed) => Err(unwritten(alloc, name)),
        Err(PutFault::Memory) => Err(Refusal::Memory),
    }
}

/// Puts the routed DEF under OUT, and then the journal under JOURNAL.
fn put_outputs<F: Shelf>(
    alloc: Global,
    files: &mut F,
    command: &Command<'_>,
    routed: &[u8],
    lines: &[u8],
) -> Result<(), Refusal>
    ensures ok { OnOk result (F.told files.new ≡ with_outputs (F.told files.old) (asked_by command.now) routed.now lines.now) }
    ensures err { IfErr result (IsUnput (shelf_at F.told F.faults files.old) (shelf_at F.told F.faults files.new) (asked_by command.now) routed.now lines.now) }
    ensures count { F.faults files.old ≤ F.faults files.new }
    ensures stays_sure { F.sure files.old → F.sure files.new }
    ensures sure_count { F.sure files.old → F.faults files.new ≡ F.faults files.old }
{
    put(alloc, files, command.out.as_str(), routed)?;
    put(alloc, files, command.journal.as_str(), lines)
}

/// Ends a run of which an output could not be put.
fn unput<K: Sink>(alloc: Global, journal: Journal, out: &mut K, refusal: &Refusal) -> Done
    ensures said { SaysRefusal (sink_at K.text K.faults out.old) (sink_at K.text K.faults out.new) refusal.now result.status }
    ensures blocks { result.journal.blocks ≡ (if result.status == 9 then journal.blocks else []) }
    ensures count { K.faults out.old ≤ K.faults out.new }
    ensures stays_sure { K.sure out.old → K.sure out.new }
    ensures sure_count { K.sure out.old → K.faults out.new ≡ K.faults out.old }
{
    let status = say_refusal(alloc, out, refusal);
    if status == UNWRITTEN {
        return Done { status, journal };
    }
    Done {
        status,
        journal: Journal::new(alloc),
    }
}

/// Says the report, and ends the run.
fn say_report<K: Sink>(
    alloc: Global,
    status: u8,
    journal: Journal,
    report: &[u8],
    out: &mut K,
) -> Done
    ensures ends { EndsSaid status journal.blocks report.now (sink_at K.text K.faults out.old) (sink_at K.text K.faults out.new) result }
    ensures count { K.faults out.old ≤ K.faults out.new }
    ensures stays_sure { K.sure out.old → K.sure out.new }
    ensures sure_count { K.sure out.old → K.faults out.new ≡ K.faults out.old }
{
    match out.say(report) {
        Ok(()) => Done { status, journal },
        Err(SayFault::Failed) => Done {
            status: UNWRITTEN,
            journal,
        },
        Err(SayFault::Memory) => {
            say_memory(out);
            Done {
                status: OUT_OF_MEMORY,
                journal: Journal::new(alloc),
            }
        }
    }
}

/// Writes the outputs, and ends the run.
fn write_outputs<F: Shelf, K: Sink>(
    alloc: Global,
    command: &Command<'_>,
    outputs: Outputs,
    files: &mut F,
    out: &mut K,
) -> Done
    ensures ends { Ends (asked_by command.now) outputs (moment_at F.told F.faults K.text K.faults files.old out.old) (moment_at F.told F.faults K.text K.faults files.new out.new) result }
    ensures sure_files { F.sure files.old → F.faults files.new ≡ F.faults files.old }
    ensures sure_out { K.sure out.old → K.faults out.new ≡ K.faults out.old }
{
    let Outputs {
        journal,
        routed,
        lines,
        report,
        status,
    } = outputs;
    match put_outputs(alloc, files, command, routed.as_slice(), lines.as_slice()) {
        Ok(()) => say_report(alloc, status, journal, report.as_slice(), out),
        Err(refusal) => unput(alloc, journal, out, &refusal),
    }
}

/// Runs `route` on these files.
fn run_route<F: Shelf, K: Sink>(
    alloc: Global,
    command: &Command<'_>,
    files: &mut F,
    out: &mut K,
) -> Done
    requires { IsInRange (asked_by command.now) }
    ensures runs { Runs (asked_by command.now) (moment_at F.told F.faults K.text K.faults files.old out.old) (moment_at F.told F.faults K.text K.faults files.new out.new) result }
    ensures sure_files { F.sure files.old → AreHeld (F.told files.old) (asked_by command.now) → F.faults files.new ≡ F.faults files.old }
    ensures sure_out { K.sure out.old → K.faults out.new ≡ K.faults out.old }
{
    let read = match read_design(alloc, files, command) {
        Ok(read) => read,
        Err(refusal) => return refused(alloc, out, &refusal),
    };
    match make_outputs(alloc, read.text.as_slice(), &read.design) {
        Ok(outputs) => write_outputs(alloc, command, outputs, files, out),
        Err(Memory) => refused(alloc, out, &Refusal::Memory),
    }
}

/// Runs the command line `route LEF DEF GUIDE OUT JOURNAL`, behind which options stand, on one thread:
/// reads LEF, DEF and, where GUIDE isn't `-`, guides from the shelf, routes the design, puts the routed
/// DEF under OUT and the journal under JOURNAL, and says the report. It always returns.
///
/// | Status | Comes | Files |
/// |---|---|---|
/// | 0 | each routable net is joined, and no net lacks a guide | both are put |
/// | 1 | a net is stuck or has no guide | both are put |
/// | 2 | the words are no such command line | untouched |
/// | 3, 4, 5 | LEF, DEF or the guides aren't in their grammar | untouched |
/// | 6 | the texts give no design | untouched |
/// | 7 | a count is above its limit | untouched |
/// | 8 | a file could not be read | untouched |
/// | 9 | a file could not be put, or the report not be said | up to that point |
/// | 10 | memory ran out | untouched, or up to that point |
///
/// From 2 on a line that begins with `error` says why, but at 9 where the report could not be said.
pub fn run_serial<F: Shelf, K: Sink>(
    alloc: Global,
    words: &[String],
    files: &mut F,
    out: &mut K,
) -> Done
    ensures runs { IfOk (command_of (word_texts words.now)) (λ asked. Runs asked (moment_at F.told F.faults K.text K.faults files.old out.old) (moment_at F.told F.faults K.text K.faults files.new out.new) result) }
    ensures words { IfErr (command_of (word_texts words.now)) (λ fault. RefusesWords fault (moment_at F.told F.faults K.text K.faults files.old out.old) (moment_at F.told F.faults K.text K.faults files.new out.new) result) }
    ensures exact { IfOk (command_of (word_texts words.now)) (λ asked. AnswersExactly asked (moment_at F.told F.faults K.text K.faults files.old out.old) (moment_at F.told F.faults K.text K.faults files.new out.new) result) }
    ensures untouched { IfErr (command_of (word_texts words.now)) (λ _. files.new ≡ files.old) }
    ensures sure_files { F.sure files.old → IfOk (command_of (word_texts words.now)) (AreHeld (F.told files.old)) → F.faults files.new ≡ F.faults files.old }
    ensures sure_out { K.sure out.old → K.faults out.new ≡ K.faults out.old }
{
    match read_words(words) {
        Ok(command) => run_route(alloc, &command, files, out),
        Err(fault) => refused(alloc, out, &Refusal::Words(fault)),
    }
}
