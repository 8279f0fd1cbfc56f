//! What can be read of a service after it is gone.
ghost use Rattle.std.specs.Prelude.{◌≡◌, IfOk};
ghost use mathlib.Core.List.{IsPrefix};
ghost use Rattle.sup_core.specs.History.{phase_of, state_of};
ghost use Rattle.tai_status.specs.declared.phase.Phase.TheVariants as phase;
ghost use Rattle.sup_trace.specs.Content.{replay_of};
ghost use Rattle.svc_station.specs.Ends.{IsSameReader, history_at, history_in, known_to, note_station};
ghost use Rattle.svc_station.specs.Ends.{reader_station, told_by, trace_at};

use std::alloc::{AllocError, Allocator};
use sup_core::Machine;
use sup_trace::TraceText;
use svc_station::audit::last_machine;
use svc_station::note::Note;
use svc_station::reader::Reader;

/// Returns what a reader reads after it learns a note that the writer made when the service was gone. It reads the
/// machine after the whole history, and the trace of that history, which replays to that machine. `AllocError` is
/// returned if there is no memory for the trace.
pub fn last_reading<A: Allocator>(
    alloc: A,
    reader: &mut Reader,
    note: Note,
) -> Result<(Machine, TraceText<A>), AllocError>
    requires station { note_station note ≡ reader_station reader.old }
    requires gone { phase_of (history_in note) ≡ phase.Gone }

    // The reader stays the same, and still knows all that it knew.
    ensures same { IsSameReader reader.old reader.new }
    ensures own { IsPrefix (known_to reader.old) (known_to reader.new) }

    // It knows the events of the note and no more, even if there is no memory for the trace.
    ensures whole { known_to reader.new ≡ told_by note }
    ensures history { history_at reader.new ≡ history_in note }

    // If there is memory, the machine and the trace are those after this whole history. The trace replays to the
    // machine.
    ensures machine { IfOk result (λ read. read.0 ≡ state_of (history_in note)) }
    ensures trace { IfOk result (λ read. read.1 ≡ trace_at reader.new) }
    ensures replays { IfOk result (λ read. replay_of read.1 ≡ state_of (history_in note)) }
{
    let machine = last_machine(reader, note);
    let trace = reader.trace(alloc)?;
    Ok((machine, trace))
}
