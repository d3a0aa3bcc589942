//! A run of the program, from its words to its exit status.
ghost use Rattle.std.specs.Prelude.{◌≡◌, ◌≤◌, ◌^◌, false, IfOk, OnOk, None};
ghost use Rattle.std.specs.Option.{ForSome};
ghost use Rattle.uq_facts.specs.Causes.{AtErr, HasCauseAt};
ghost use Rattle.uq_journal.specs.Calls.{KeepsRecovered};
ghost use Rattle.uq_kv.specs.Cursor.{key_of};
ghost use Rattle.uq_kv.specs.Holds.{HasShape, HoldsNone};
ghost use Rattle.uq_kv.specs.Kv.{Tells, closed_of, disk_of, is_begun_of, limits_of};
ghost use Rattle.uq_kv.specs.Opening.{Finds, IsLeftBy};
ghost use Rattle.uq_model.specs.Session.{opened};
ghost use Rattle.uq_model.specs.declared.limits.TheConstants.{MOST_BYTES, MOST_ENTRIES};
ghost use Rattle.uq_shell.specs.Carries.{CarriesOut};
ghost use Rattle.uq_shell.specs.Ends.{FindsWhatIsThere, RunsOver};
ghost use Rattle.uq_shell.specs.Headline.{KeepsFilesAtGate};
ghost use Rattle.uq_shell.specs.Modes.{mode_in};
ghost use Rattle.uq_shell.specs.Obeys.{at_start};
ghost use Rattle.uq_shell.specs.Performs.{AreWithin};
ghost use Rattle.uq_shell.specs.Stream.{mode_of, terms_in};
ghost use Rattle.uq_shell.specs.Within.{RunsAnywhere, RunsOverStore};
ghost use Rattle.uq_words.specs.Options.{most_budget};
ghost use Rattle.uq_words.specs.Texts.{asked_by, texts_of};

use crate::command::read_command;
use crate::ending::{end, settle};
use crate::listening::listen;
use crate::mode::Mode;
use crate::obeying::obey;
use crate::progress::{Progress, Stop};
use crate::reciting::recite;
use crate::terms::Terms;
use crate::{Ended, Status};
use std::alloc::Global;
use uq_kv::{Cursor, Kv, OpenFault, Ready, recover};
use uq_outside::{Disk, Sink, Source};
use uq_words::{Order, read_options};

/// How many bytes of its input a run reads.
const MOST_INPUT: u64 = 1 << 40;

/// Obeys the words: options, the name of a database, and one command; where there is no command, those of the input;
/// where it is `script`, the input as one script. Of the input it reads 2^40 bytes at most.
pub fn run<D: Disk, I: Source, O: Sink>(
    alloc: Global,
    words: &[String],
    disk: &mut D,
    input: &mut I,
    out: &mut O,
) -> Ended
    ensures anywhere { RunsAnywhere D.Disk I.Source O.Sink words.now (2 ^ 40) disk.old disk.new input.old input.new out.old out.new result }
    ensures store { RunsOverStore D.Disk I.Source O.Sink words.now (2 ^ 40) disk.old disk.new input.old input.new out.old out.new result }
{
    run_within(alloc, words, disk, input, out, MOST_INPUT)
}

/// The same, where at most so many bytes of the input are read.
pub fn run_within<D: Disk, I: Source, O: Sink>(
    alloc: Global,
    words: &[String],
    disk: &mut D,
    input: &mut I,
    out: &mut O,
    most: u64,
) -> Ended
    requires { 1 ≤ most }
    ensures anywhere { RunsAnywhere D.Disk I.Source O.Sink words.now most disk.old disk.new input.old input.new out.old out.new result }
    ensures store { RunsOverStore D.Disk I.Source O.Sink words.now most disk.old disk.new input.old input.new out.old out.new result }
{
    let order = match read_options(alloc, words) {
        Ok(order) => order,
        Err(fault) => return end(alloc, Status::from(fault), Progress::new(), out),
    };
    match open(alloc, disk, order.name.text()) {
        Ok(ready) => follow(alloc, &order, ready, disk, input, out, most),
        Err(fault) => end(alloc, Status::from(fault), Progress::new(), out),
    }
}

/// Binds the disk to this name, and recovers its files.
fn open<D: Disk>(alloc: Global, disk: &mut D, name: &str) -> Result<Ready, OpenFault>
    ensures ready { IfOk result (λ ready. IsLeftBy D.Disk ready disk.new) }
    ensures found { IfOk result (λ ready. ForSome (D.content disk.old) (FindsWhatIsThere D.Disk ready disk.new)) }
    ensures shape { OnOk result (ForSome (D.content disk.old) HasShape) }
    ensures not_database { AtErr OpenFault.NotDatabase result (HoldsNone D.Disk disk.old) }
    ensures gate { KeepsFilesAtGate D.Disk disk.old disk.new }
    ensures stop { KeepsRecovered D.Disk disk.old disk.new }
    ensures cause { HasCauseAt OpenFault.Disk (D.faults disk.old) (D.faults disk.new) result }
{
    match disk.attach(name) {
        Ok(()) => recover(alloc, disk),
        Err(_) => Err(OpenFault::Disk),
    }
}

/// Follows an order over a disk that was just recovered.
fn follow<D: Disk, I: Source, O: Sink>(
    alloc: Global,
    order: &Order,
    ready: Ready,
    disk: &mut D,
    input: &mut I,
    out: &mut O,
    most: u64,
) -> Ended
    requires ready { IsLeftBy D.Disk ready disk.old }
    requires budget { order.now.budget ≤ most_budget }
    requires entries { order.now.max_entries ≤ MOST_ENTRIES }
    requires bytes { order.now.max_bytes ≤ MOST_BYTES }
    requires most { 1 ≤ most }
    ensures { RunsOver D.Disk I.Source O.Sink (Finds D.Disk ready disk.old) (terms_in (asked_by order.now)) (mode_of (texts_of order.now.words))
        most disk.old disk.new input.old input.new out.old out.new result }
{
    let terms = Terms {
        limits: order.limits(),
        budget: order.budget,
    };
    let mut kv = Kv::over(disk, ready, terms.limits);
    let mode = Mode::of(order.words.as_slice());
    let ended = serve(alloc, &terms, mode, &mut kv, input, out, most);
    let _disk = kv.into_disk();
    ended
}

/// Obeys words or the input over a store on which nothing is begun.
fn serve<D: Disk, I: Source, O: Sink>(
    alloc: Global,
    terms: &Terms,
    mode: Mode<'_>,
    kv: &mut Kv<'_, D>,
    input: &mut I,
    out: &mut O,
    most: u64,
) -> Ended
    requires open { closed_of D.Disk kv.old ≡ None }
    requires idle { is_begun_of D.Disk kv.old ≡ false }
    requires terms { AreWithin terms.now (limits_of D.Disk kv.old) }
    requires most { 1 ≤ most }
    ensures same_reference { (disk_of D.Disk kv.new).ghost_name ≡ (disk_of D.Disk kv.old).ghost_name }
    ensures runs { RunsOver D.Disk I.Source O.Sink (λ entry. Tells D.Disk kv.old (opened entry)) terms.now (mode_in mode.entry)
        most (disk_of D.Disk kv.old).now (disk_of D.Disk kv.new).now input.old input.new out.old out.new result }
{
    let mut cursor = Cursor::new();
    let mut progress = Progress::new();
    match carry_out(
        alloc,
        terms,
        mode,
        kv,
        &mut cursor,
        input,
        &mut progress,
        out,
        most,
    ) {
        Ok(()) => settle(alloc, progress, kv, out),
        Err(Stop::At(status)) => end(alloc, status, progress, out),
        Err(Stop::Sink) => Ended {
            status: Status::Stream,
            done: progress.done,
            meter: progress.meter,
        },
    }
}

/// Does what the words or the input ask for, up to its end.
fn carry_out<D: Disk, I: Source, O: Sink>(
    alloc: Global,
    terms: &Terms,
    mode: Mode<'_>,
    kv: &mut Kv<'_, D>,
    cursor: &mut Cursor,
    input: &mut I,
    progress: &mut Progress,
    out: &mut O,
    most: u64,
) -> Result<(), Stop>
    requires open { closed_of D.Disk kv.old ≡ None }
    requires idle { is_begun_of D.Disk kv.old ≡ false }
    requires terms { AreWithin terms.now (limits_of D.Disk kv.old) }
    requires begins { progress.old ≡ at_start }
    requires unset { key_of cursor.old ≡ None }
    requires most { 1 ≤ most }
    ensures { CarriesOut D.Disk I.Source O.Sink terms.now (mode_in mode.entry) most
        progress.new kv.old kv.new input.old input.new out.old out.new result }
{
    match mode {
        Mode::Lines => listen(alloc, terms, kv, cursor, input, progress, out, most),
        Mode::Script => recite(alloc, terms, kv, cursor, input, progress, out, most),
        Mode::Words(words) => obey(alloc, read_command(words), kv, cursor, progress, out),
    }
}
