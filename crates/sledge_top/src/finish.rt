//! How a command ends.

ghost use Rattle.std.specs.Prelude.{◌≡◌, ◌≤◌, ◌⊎◌, IfSome, IsErrOf, Ok};
ghost use Rattle.outside.specs.Faults.{Rose};
ghost use Rattle.sledge_top.specs.Endings.{Ends, Says, IsSilent, Leaves, Does};
ghost use Rattle.sledge_top.specs.Views.{done_view, Finishes, FinishesAlone};

use crate::done::Done;
use crate::failure::Failure;
use outside::{PutFault, Sink, Store, write_all};
use report::{Refusal, Status};
use std::alloc::Global;

/// Puts the file and then writes the text.
fn put_and_write<S: Store, O: Sink>(
    alloc: Global,
    done: &Done<'_>,
    store: &mut S,
    out: &mut O,
) -> Status
    ensures ending { Ends result (Ok (done_view done.now)) }
    ensures store_fault { result ≡ Status.StoreFault
        → Rose (S.faults store.old) (S.faults store.new) }
    ensures sink_fault { result ≡ Status.SinkFault → Rose (O.faults out.old) (O.faults out.new) }
    ensures output { Says result (O.written out.old) (O.written out.new) done.now.text.items }
    ensures files { IfSome (S.told store.old) (λ files.
        Leaves result files (S.told store.new) (Ok (done_view done.now))) }
    ensures faults { S.faults store.old ≤ S.faults store.new }
{
    if let Some(put) = &done.put {
        match store.put(alloc, put.name, &put.bytes) {
            Ok(()) => {}
            Err(PutFault::Failed) => return Status::StoreFault,
            Err(PutFault::Memory) => return Status::Memory,
        }
    }
    match write_all(out, &done.text) {
        Ok(()) => Status::Ok,
        Err(_) => Status::SinkFault,
    }
}

/// Ends a command by what it comes to: its file is put, and then its text is written.
pub fn finish<S: Store, O: Sink>(
    alloc: Global,
    outcome: Result<Done<'_>, Failure>,
    store: &mut S,
    out: &mut O,
) -> Status
    ensures answer { IfSome (S.told store.old) (λ files. Finishes outcome.entry
        result files (S.told store.new) (O.written out.old) (O.written out.new)) }
    ensures alone { FinishesAlone outcome.entry
        result (O.written out.old) (O.written out.new) }
    ensures refused { result ≡ Status.Refused Refusal.Usage
        → IsErrOf outcome.entry (Failure.Refused Refusal.Usage) }
    ensures usage { IsErrOf outcome.entry (Failure.Refused Refusal.Usage)
        → result ≡ Status.Refused Refusal.Usage }
    ensures memory { IsErrOf outcome.entry Failure.Memory → result ≡ Status.Memory }
    ensures store_fault { result ≡ Status.StoreFault → IsErrOf outcome.entry Failure.StoreFault
        ⊎ Rose (S.faults store.old) (S.faults store.new) }
    ensures sink_fault { result ≡ Status.SinkFault → Rose (O.faults out.old) (O.faults out.new) }
    ensures silent { IsSilent result → O.written out.new ≡ O.written out.old }
    ensures faults { S.faults store.old ≤ S.faults store.new }
{
    match outcome {
        Ok(done) => put_and_write(alloc, &done, store, out),
        Err(Failure::Refused(why)) => Status::Refused(why),
        Err(Failure::StoreFault) => Status::StoreFault,
        Err(Failure::Memory) => Status::Memory,
    }
}
