//! The packer of a run, as the sink to which the aggregator sends lines.
ghost use Rattle.std.specs.Prelude.{◌≡◌, []};
ghost use Rattle.cadence_stage.specs.OwnLog.{items_of};

use crate::packing::Packing;
use cadence_aggregate::{Line, LineSink, out_of_memory};
use cadence_aggregating::{Note, note_line};
use cadence_errors::SinkError;
use cadence_flow::io::PacketWriter;
use cadence_stage::{OwnLog, Stage};
use std::alloc::{Allocator, Global};

// The packer of a run. `notes` has what each line says that the packer kept, and exists in proofs only.
#[derive(Drop)]
pub(crate) struct PackerSink<P: PacketWriter, A: Allocator> {
    pub(crate) packing: Packing<P, A>,
    text: String,
    notes: OwnLog<Note>,
}

impl<P: PacketWriter, A: Allocator> PackerSink<P, A> {
    // Returns the packer as a sink, which was given no line yet.
    pub(crate) fn new(alloc: Global, packing: Packing<P, A>) -> PackerSink<P, A>
        ensures packing { result.packing ≡ packing }
        ensures notes { items_of result.notes ≡ [] }
    {
        PackerSink {
            packing,
            text: String::new(alloc),
            notes: OwnLog::new(),
        }
    }

    // Returns the packer.
    pub(crate) fn into_packing(self) -> Packing<P, A>
        ensures { result ≡ self.packing }
    {
        let PackerSink {
            packing,
            text: _,
            notes: _,
        } = self;
        packing
    }
}

impl<P: PacketWriter, A: Allocator> LineSink for PackerSink<P, A> {
    ghost use Rattle.cadence_schedule.specs.Leads.{LeadsSink, sent_by};
    ghost use Rattle.cadence_schedule.specs.Led.{leads_joined, leads_none, none_without_memory};

    ghost sent = { λ s. sent_by s };

    ghost leads = { λ old result new. LeadsSink P.kind P.history old result new };

    fn send(&mut self, line: Line<'_>, fault: &mut SinkError) -> Option<()> {
        let Ok(note) = note_line(&mut self.text, line) else {
            return out_of_memory(fault);
        };
        let _count = self.packing.take_line(&self.text, fault)?;
        self.notes.note(&note);
        Some(())
    }

    ghost leads_to_itself = { λ s. leads_none P.kind P.history s };

    ghost leads_nowhere = { λ s. none_without_memory P.kind P.history s };

    ghost leads_further = { λ a b c result first more.
        leads_joined P.kind P.history a b c result first more };
}
