ghost use Rattle.std.specs.Prelude.{◌≡◌, ◌<◌, map, string_bytes};
ghost use Rattle.topo_recover.specs.Recovered.{IsKept};
ghost use Rattle.topo.specs.Endings.{Ending, standard};
ghost use Rattle.topo.specs.Statuses.{Means, IsComplete};
ghost use Rattle.topo.specs.Words.{AreForm};

use crate::apply::apply;
use crate::check::check;
use crate::end::end_with;
use crate::served::Served;
use crate::show::show;
use crate::words::{Form, form_of, is_check};
use std::alloc::Global;
use std::marker::Brand;
use std::sync::ledger::{Blank, Ledger};
use topo_base::Steps;
use topo_disk::Disk;
use topo_io::{Sink, Source};

/// The form that has no journal, or words that are no form.
fn without_journal<S: Source, K: Sink, D: Disk>(
    alloc: Global,
    words: &[String],
    source: &mut S,
    sink: &mut K,
    disk: D,
) -> Served<D>
    requires { AreForm (map string_bytes words.now) → ⊥ }
    ensures { Ending (map string_bytes words.now) (result.disk ≡ disk) (D.tells → IsKept D.pending D.moment D.seen D.may_leave D.left_since standard disk result.disk)
        (record { left = S.left source.old; faults = S.faults source.old })
        (record { left = S.left source.new; faults = S.faults source.new })
        (record { written = K.written sink.old; faults = K.faults sink.old })
        (record { written = K.written sink.new; faults = K.faults sink.new })
        (record { tells = D.tells; seen = D.seen disk; may_leave = D.may_leave disk; faults = D.faults disk })
        (record { tells = D.tells; seen = D.seen result.disk; may_leave = D.may_leave result.disk; faults = D.faults result.disk }) result.status }
{
    if is_check(words) {
        return Served::of(check(alloc, source, sink), disk);
    }
    Served::of(end_with(sink, b"fault words\n", 2), disk)
}

/// The whole call, on a counter of its own.
fn solo_counted<S: Source, K: Sink, D: Disk, L: Ledger>(
    alloc: Global,
    words: &[String],
    source: &mut S,
    sink: &mut K,
    disk: D,
    blank: Blank,
) -> Served<D>
    requires name { blank.name ≡ L.name }
    requires parts { blank.parts ≡ L.parts }
    requires some { 0 < blank.parts }
    ensures { Ending (map string_bytes words.now) (result.disk ≡ disk) (D.tells → IsKept D.pending D.moment D.seen D.may_leave D.left_since standard disk result.disk)
        (record { left = S.left source.old; faults = S.faults source.old })
        (record { left = S.left source.new; faults = S.faults source.new })
        (record { written = K.written sink.old; faults = K.faults sink.old })
        (record { written = K.written sink.new; faults = K.faults sink.new })
        (record { tells = D.tells; seen = D.seen disk; may_leave = D.may_leave disk; faults = D.faults disk })
        (record { tells = D.tells; seen = D.seen result.disk; may_leave = D.may_leave result.disk; faults = D.faults result.disk }) result.status }
{
    let mut steps = Steps::<L>::new(blank);
    match form_of(words) {
        None => without_journal(alloc, words, source, sink, disk),
        Some(Form::Apply) => apply(alloc, source, sink, disk, &mut steps),
        Some(Form::Show(shown)) => show(alloc, shown, sink, disk, &mut steps),
    }
}

/// All that the program does but to find its journal: the words choose what, the source is the script, the sink gets the
/// replies and the tables, and the disk holds the journal and comes back.
pub fn solo<S: Source, K: Sink, D: Disk>(
    alloc: Global,
    words: &[String],
    source: &mut S,
    sink: &mut K,
    disk: D,
) -> Served<D>
    // How it ends, by its cause: what was read, what is written, and what stands on the disk.
    ensures ending { Ending (map string_bytes words.now) (result.disk ≡ disk) (D.tells → IsKept D.pending D.moment D.seen D.may_leave D.left_since standard disk result.disk)
        (record { left = S.left source.old; faults = S.faults source.old })
        (record { left = S.left source.new; faults = S.faults source.new })
        (record { written = K.written sink.old; faults = K.faults sink.old })
        (record { written = K.written sink.new; faults = K.faults sink.new })
        (record { tells = D.tells; seen = D.seen disk; may_leave = D.may_leave disk; faults = D.faults disk })
        (record { tells = D.tells; seen = D.seen result.disk; may_leave = D.may_leave result.disk; faults = D.faults result.disk }) result.status }

    // What each status means, and that each cause has its status.
    ensures means { Means (map string_bytes words.now)
        (record { left = S.left source.old; faults = S.faults source.old })
        (record { left = S.left source.new; faults = S.faults source.new })
        (record { written = K.written sink.old; faults = K.faults sink.old })
        (record { written = K.written sink.new; faults = K.faults sink.new })
        (record { tells = D.tells; seen = D.seen disk; may_leave = D.may_leave disk; faults = D.faults disk })
        (record { tells = D.tells; seen = D.seen result.disk; may_leave = D.may_leave result.disk; faults = D.faults result.disk }) result.status }
    ensures complete { IsComplete (map string_bytes words.now)
        (record { left = S.left source.old; faults = S.faults source.old })
        (record { left = S.left source.new; faults = S.faults source.new })
        (record { written = K.written sink.old; faults = K.faults sink.old })
        (record { written = K.written sink.new; faults = K.faults sink.new })
        (record { tells = D.tells; seen = D.seen disk; may_leave = D.may_leave disk; faults = D.faults disk })
        (record { tells = D.tells; seen = D.seen result.disk; may_leave = D.may_leave result.disk; faults = D.faults result.disk }) result.status }
{
    solo_counted::<S, K, D, Brand>(alloc, words, source, sink, disk, Blank::new(1))
}
