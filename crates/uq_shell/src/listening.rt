//! The commands and the scripts of the input are obeyed, one by one.
ghost use Rattle.std.specs.Prelude.{◌≡◌, ◌≤◌, false, Some, None};
ghost use Rattle.uq_kv.specs.Cursor.{key_of};
ghost use Rattle.uq_kv.specs.Kv.{closed_of, is_begun_of, limits_of};
ghost use Rattle.uq_shell.specs.Carries.{Carries, DrawsBy, StopsBehind};
ghost use Rattle.uq_shell.specs.Obeys.{at_start};
ghost use Rattle.uq_shell.specs.Performs.{AreWithin};
ghost use Rattle.uq_shell.specs.Stream.{listening, run_from, start};

use crate::Status;
use crate::asking::{Next, take_next};
use crate::obeying::grant;
use crate::progress::{Progress, Stop};
use crate::terms::Terms;
use std::alloc::Global;
use uq_kv::{Cursor, Kv};
use uq_outside::{Disk, Sink, Source};
use uq_words::Lines;

/// Obeys the lines and the blocks of the input, of which at most so many bytes are read.
pub fn listen<D: Disk, I: Source, O: Sink>(
    alloc: Global,
    terms: &Terms,
    kv: &mut Kv<'_, D>,
    cursor: &mut Cursor,
    input: &mut I,
    progress: &mut Progress,
    out: &mut O,
    most: u64,
) -> Result<(), Stop>
    requires open { closed_of D.Disk kv.old ≡ None }
    requires idle { is_begun_of D.Disk kv.old ≡ false }
    requires terms { AreWithin terms.now (limits_of D.Disk kv.old) }
    requires begins { progress.old ≡ at_start }
    requires unset { key_of cursor.old ≡ None }
    requires most { 1 ≤ most }
    ensures carries { Carries D.Disk O.Sink (λ bytes. I.left input.old ≡ Some bytes)
        (λ judge entry bytes. run_from judge terms.now (listening (start entry)) most bytes) progress.new kv.old kv.new out.old out.new result }
    ensures behind { StopsBehind D.Disk I.Source O.Sink (λ bytes. I.left input.old ≡ Some bytes)
        (λ judge entry count bytes. run_from judge terms.now (listening (start entry)) count bytes) progress.new kv.old input.new result }
    ensures draws { DrawsBy I.Source most input.old input.new result }
{
    let mut lines = Lines::new(alloc, most);
    'lines: loop {
        match take_next(alloc, &mut lines, input)? {
            Next::More(ask) => grant(alloc, &ask, lines.text(), terms, kv, cursor, progress, out)?,
            Next::Last(ask) => return grant(
                alloc,
                &ask,
                lines.text(),
                terms,
                kv,
                cursor,
                progress,
                out,
            ),
            Next::TooMuch => return Err(Stop::At(Status::TooMuchInput)),
        }
    }
}
